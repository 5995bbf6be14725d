//! Loops that rank the rows or the columns by falling number of entries.

ghost use Rattle.std.specs.Prelude.{◌≡◌, ◌+◌, ◌<◌, ◌^◌, IfOk};
ghost use Rattle.us_code.specs.Plain.{tree_of};
ghost use Rattle.us_gen_query.specs.Reordering as reordering;

use sqlite_items::Items;
use std::alloc::{AllocError, Global};
use us_code::{Block, Buf, Columns, Dim, Term, for_below, load, order, set, sub, when};

/// The loop that does a block with each entry's index, which buffer `indices` holds, in register `next + 2`.
pub(crate) fn at_index(
    alloc: Global,
    columns: &Columns,
    indices: u32,
    size: Dim,
    next: u32,
    inner: Block,
) -> Result<Block, AllocError>
    requires { next + 4 < 2 ^ 32 }
    ensures { IfOk result (λ b. tree_of b ≡ reordering.at_index columns.now indices size next (tree_of inner)) }
{
    let mut body = Block::of(alloc, load(next + 1, Buf::New(indices), Term::Reg(next)))?;
    body.push(when(Term::Reg(next + 1), size, next + 2, inner))?;
    Block::of(alloc, for_below(next, Dim::Name(columns.count), body))
}

/// One less in buffer `counts` at the index.
fn one_less(alloc: Global, counts: u32, next: u32) -> Result<Block, AllocError>
    requires { next + 4 < 2 ^ 32 }
    ensures { IfOk result (λ b. tree_of b ≡ reordering.one_less counts next) }
{
    let less = sub(alloc, Term::Reg(next + 3), Term::Number(1))?;
    let mut block = Block::of(alloc, load(next + 3, Buf::New(counts), Term::Reg(next + 2)))?;
    block.push(set(Buf::New(counts), Term::Reg(next + 2), less))?;
    Ok(block)
}

/// The entry's cell of buffer `into` gets what stands in buffer `from` at the index.
fn looked_up(alloc: Global, from: u32, into: u32, next: u32) -> Result<Block, AllocError>
    requires { next + 4 < 2 ^ 32 }
    ensures { IfOk result (λ b. tree_of b ≡ reordering.looked_up from into next) }
{
    let mut block = Block::of(alloc, load(next + 3, Buf::New(from), Term::Reg(next + 2)))?;
    block.push(set(Buf::New(into), Term::Reg(next), Term::Reg(next + 3)))?;
    Ok(block)
}

/// Buffer `ranks` gets the place of each number in buffer `table`.
fn invert(alloc: Global, size: Dim, table: u32, ranks: u32, next: u32) -> Result<Block, AllocError>
    requires { next + 4 < 2 ^ 32 }
    ensures { IfOk result (λ b. tree_of b ≡ reordering.invert size table ranks next) }
{
    let mut body = Block::of(alloc, load(next + 1, Buf::New(table), Term::Reg(next)))?;
    body.push(set(Buf::New(ranks), Term::Reg(next + 1), Term::Reg(next)))?;
    Block::of(alloc, for_below(next, size, body))
}

/// Orders the rows or the columns, `size` of them, whose index buffer `indices` holds for each entry: more entries come
/// first, then the lower index. Buffer `counts` gets the counts, downwards, `table` the order, `ranks` the rank of each
/// index and `into` that of each entry's. Registers from `next` on are its own, 10 at most. It fails only for want of
/// memory.
pub fn reorder(
    alloc: Global,
    columns: &Columns,
    indices: u32,
    size: Dim,
    counts: u32,
    table: u32,
    ranks: u32,
    into: u32,
    next: u32,
) -> Result<Block, AllocError>
    requires { next + 10 < 2 ^ 32 }
    ensures { IfOk result (λ b. tree_of b ≡ reordering.reorder columns.now indices size counts table ranks into next) }
{
    let less = one_less(alloc, counts, next)?;
    let mut block = at_index(alloc, columns, indices, size, next, less)?;
    let mut keys = Items::new(alloc);
    keys.push(Buf::New(counts))?;
    let mut back = Block::of(alloc, order(Buf::New(table), keys))?;
    let mut inverse = invert(alloc, size, table, ranks, next + 4)?;
    let found = looked_up(alloc, ranks, into, next + 6)?;
    inverse.append(at_index(alloc, columns, indices, size, next + 6, found)?)?;
    back.append(inverse)?;
    block.append(back)?;
    Ok(block)
}

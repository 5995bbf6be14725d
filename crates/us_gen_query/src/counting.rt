//! Loops that count over the entries in the order of a value.

ghost use Rattle.std.specs.Prelude.{◌≡◌, ◌+◌, ◌<◌, ◌^◌, IfOk};
ghost use Rattle.us_code.specs.Plain.{alone, term_tree, tree_of};
ghost use Rattle.us_code.specs.Plain as plain;
ghost use Rattle.us_gen_query.specs.Counting as counting;

use sqlite_items::Items;
use std::alloc::{AllocError, Global};
use us_code::{
    Block, Buf, Bufs, Columns, Dim, Stmt, Term, add, for_below, if_else, load, order, put, set,
    sub, var, when,
};

/// The buffers of an order by `key`, and then by row and column.
fn row_major(alloc: Global, columns: &Columns, key: u32) -> Result<Bufs, AllocError>
    ensures { IfOk result (λ keys. keys ≡ counting.row_major columns.now key) }
{
    let mut keys = Items::new(alloc);
    keys.push(Buf::New(key))?;
    if key == columns.i {
        keys.push(Buf::New(columns.j))?;
        Ok(keys)
    } else if key == columns.j {
        keys.push(Buf::New(columns.i))?;
        Ok(keys)
    } else {
        keys.push(Buf::New(columns.i))?;
        keys.push(Buf::New(columns.j))?;
        Ok(keys)
    }
}

/// How many entries of its run come before an entry.
fn run_place(alloc: Global, next: u32) -> Result<Term, AllocError>
    requires { next + 11 < 2 ^ 32 }
    ensures { IfOk result (λ t. term_tree t ≡ counting.run_place next) }
{
    sub(alloc, Term::Reg(next + 3), Term::Reg(next + 1))
}

/// How many entries its run has with it so far.
fn run_length(alloc: Global, next: u32) -> Result<Term, AllocError>
    requires { next + 11 < 2 ^ 32 }
    ensures { IfOk result (λ t. term_tree t ≡ counting.run_length next) }
{
    add(alloc, run_place(alloc, next)?, Term::Number(1))
}

/// Keeps the longest run.
fn longest(alloc: Global, next: u32) -> Result<Stmt, AllocError>
    requires { next + 11 < 2 ^ 32 }
    ensures { IfOk result (λ s. alone s ≡ counting.longest next) }
{
    let body = Block::of(alloc, put(next + 2, run_length(alloc, next)?))?;
    let length = run_length(alloc, next)?;
    Ok(if_else(Term::Reg(next + 2), false, length, body, None))
}

/// Reads the place and the value of the entry of a rank, and begins a run where the value is another.
fn run_step(alloc: Global, places: u32, key: u32, next: u32) -> Result<Block, AllocError>
    requires { next + 11 < 2 ^ 32 }
    ensures { IfOk result (λ b. tree_of b ≡ counting.run_step places key next plain.End) }
{
    let mut begin = Block::of(alloc, put(next, Term::Reg(next + 5)))?;
    begin.push(put(next + 1, Term::Reg(next + 3)))?;
    let mut block = Block::of(alloc, load(next + 4, Buf::New(places), Term::Reg(next + 3)))?;
    block.push(load(next + 5, Buf::New(key), Term::Reg(next + 4)))?;
    let same = Block::new(alloc);
    let test = if_else(
        Term::Reg(next + 5),
        true,
        Term::Reg(next),
        same,
        Some(begin),
    );
    block.push(test)?;
    Ok(block)
}

fn enumerate_turn(
    alloc: Global,
    places: u32,
    key: u32,
    ranks: u32,
    next: u32,
) -> Result<Block, AllocError>
    requires { next + 11 < 2 ^ 32 }
    ensures { IfOk result (λ b. tree_of b ≡ counting.enumerate_turn places key ranks next) }
{
    let mut block = run_step(alloc, places, key, next)?;
    let place = run_place(alloc, next)?;
    block.push(set(Buf::New(ranks), Term::Reg(next + 4), place))?;
    block.push(longest(alloc, next)?)?;
    Ok(block)
}

/// Orders the entries by their values in buffer `key`, into buffer `places`. Buffer `ranks` gets for each how many come
/// before it with its value, buffer `extent` the greatest number of entries with one value. Registers from `next` on
/// are its own, 11 at most. It fails only for want of memory.
pub fn enumerate(
    alloc: Global,
    columns: &Columns,
    key: u32,
    places: u32,
    ranks: u32,
    extent: u32,
    next: u32,
) -> Result<Block, AllocError>
    requires { next + 11 < 2 ^ 32 }
    ensures { IfOk result (λ b. tree_of b ≡ counting.enumerate columns.now key places ranks extent next) }
{
    let keys = row_major(alloc, columns, key)?;
    let mut block = Block::of(alloc, order(Buf::New(places), keys))?;
    block.push(var(next, Term::Number(9223372036854775807)))?;
    block.push(var(next + 1, Term::Number(0)))?;
    block.push(var(next + 2, Term::Number(0)))?;
    let body = enumerate_turn(alloc, places, key, ranks, next)?;
    block.push(for_below(next + 3, Dim::Name(columns.count), body))?;
    block.push(set(Buf::New(extent), Term::Number(0), Term::Reg(next + 2)))?;
    Ok(block)
}

fn sum_turn(
    alloc: Global,
    columns: &Columns,
    places: u32,
    key: u32,
    sums: u32,
    lengths: u32,
    next: u32,
) -> Result<Block, AllocError>
    requires { next + 11 < 2 ^ 32 }
    ensures { IfOk result (λ b. tree_of b ≡ counting.sum_turn columns.now places key sums lengths next) }
{
    let length = run_length(alloc, next)?;
    let body = Block::of(alloc, set(Buf::New(lengths), Term::Reg(next + 6), length))?;
    let count = Dim::Name(columns.count);
    let mut block = run_step(alloc, places, key, next)?;
    block.push(set(Buf::New(sums), Term::Reg(next + 4), Term::Reg(next + 1)))?;
    block.push(when(Term::Reg(next + 1), count, next + 6, body))?;
    Ok(block)
}

/// Buffer `into` gets what stands in buffer `from` at its numbers.
fn look_up(
    alloc: Global,
    columns: &Columns,
    into: u32,
    from: u32,
    next: u32,
) -> Result<Block, AllocError>
    requires { next + 4 < 2 ^ 32 }
    ensures { IfOk result (λ b. tree_of b ≡ counting.look_up columns.now into from next) }
{
    let count = Dim::Name(columns.count);
    let mut found = Block::of(alloc, load(next + 3, Buf::New(from), Term::Reg(next + 2)))?;
    found.push(set(Buf::New(into), Term::Reg(next), Term::Reg(next + 3)))?;
    let mut body = Block::of(alloc, load(next + 1, Buf::New(into), Term::Reg(next)))?;
    body.push(when(Term::Reg(next + 1), count, next + 2, found))?;
    Block::of(alloc, for_below(next, count, body))
}

/// Orders the entries by their values in buffer `key`, into buffer `places`. Buffer `sums` gets for each how many have
/// its value; buffer `lengths` is used for it. Registers from `next` on are its own, 11 at most. It fails only for
/// want of memory.
pub fn sum(
    alloc: Global,
    columns: &Columns,
    key: u32,
    places: u32,
    sums: u32,
    lengths: u32,
    next: u32,
) -> Result<Block, AllocError>
    requires { next + 11 < 2 ^ 32 }
    ensures { IfOk result (λ b. tree_of b ≡ counting.sum columns.now key places sums lengths next) }
{
    let mut keys = Items::new(alloc);
    keys.push(Buf::New(key))?;
    let mut block = Block::of(alloc, order(Buf::New(places), keys))?;
    block.push(var(next, Term::Number(9223372036854775807)))?;
    block.push(var(next + 1, Term::Number(0)))?;
    let body = sum_turn(alloc, columns, places, key, sums, lengths, next)?;
    block.push(for_below(next + 3, Dim::Name(columns.count), body))?;
    block.append(look_up(alloc, columns, sums, lengths, next + 7)?)?;
    Ok(block)
}

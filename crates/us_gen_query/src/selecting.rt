//! Loops that select the entries of a part.

ghost use Rattle.std.specs.Prelude.{◌≡◌, ◌+◌, ◌<◌, ◌^◌, IfOk, length};
ghost use Rattle.us_code.specs.declared.program.Dim.TheVariants as dim;
ghost use Rattle.us_code.specs.Plain.{tree_of};
ghost use Rattle.us_code.specs.Plain as plain;
ghost use Rattle.us_gen_query.specs.Selecting as selecting;

use std::alloc::{AllocError, Global};
use us_code::{Block, Buf, Columns, Dim, Term, add, for_below, if_else, load, put, var};
use us_gen::append_entry;

/// A test of an entry's number in a buffer.
#[derive(Clone, Copy, Debug, PartialEq, Eq)]
pub struct Test {
    /// The buffer.
    pub buf: u32,
    /// Whether the number has to be less than the bound; else it has to be at least the bound.
    pub less: bool,
    /// The bound.
    pub bound: u64,
}

/// A block where the number in a register passes a test.
fn branch(alloc: Global, test: Test, reg: u32, inner: Block) -> Result<Block, AllocError>
    ensures { IfOk result (λ b. tree_of b ≡ selecting.branch test reg (tree_of inner)) }
{
    let number = Term::Reg(reg);
    let bound = Term::Number(test.bound);
    if test.less {
        Block::of(alloc, if_else(number, false, bound, inner, None))
    } else {
        let other = Block::new(alloc);
        Block::of(alloc, if_else(number, false, bound, other, Some(inner)))
    }
}

/// A block where the entry at the place in register `place` passes all tests. Registers from `next` on are its own, one
/// a test.
pub fn guard(
    alloc: Global,
    tests: &[Test],
    place: u32,
    next: u32,
    inner: Block,
) -> Result<Block, AllocError>
    requires { next + length tests.now + 1 < 2 ^ 32 }
    ensures { IfOk result (λ b. tree_of b ≡ selecting.guard tests.now place next (tree_of inner)) }
{
    match tests {
        [] => Ok(inner),
        [test, rest @ ..] => {
            let inside = guard(alloc, rest, place, next + 1, inner)?;
            let mut block = Block::of(alloc, load(next, Buf::New(test.buf), Term::Reg(place)))?;
            block.append(branch(alloc, *test, next, inside)?)?;
            Ok(block)
        }
    }
}

/// The loop that does a block with each entry that passes, whose place is in register `next + 1`. Register `next` is 0
/// before.
fn for_chosen(
    alloc: Global,
    columns: &Columns,
    tests: &[Test],
    next: u32,
    inner: Block,
) -> Result<Block, AllocError>
    requires { next + length tests.now + 8 < 2 ^ 32 }
    ensures { IfOk result (λ b. tree_of b ≡ plain.Var next (plain.Number 0) (plain.For (next + 1) (dim.Name columns.now.count) (selecting.guard tests.now (next + 1) (next + 2) (tree_of inner)) plain.End)) }
{
    let body = guard(alloc, tests, next + 1, next + 2, inner)?;
    let mut block = Block::of(alloc, var(next, Term::Number(0)))?;
    block.push(for_below(next + 1, Dim::Name(columns.count), body))?;
    Ok(block)
}

/// Counts the entries that pass all tests into register `next`. Registers from `next` on are its own, two and one a
/// test. It fails only for want of memory.
pub fn count_chosen(
    alloc: Global,
    columns: &Columns,
    tests: &[Test],
    next: u32,
) -> Result<Block, AllocError>
    requires { next + length tests.now + 8 < 2 ^ 32 }
    ensures { IfOk result (λ b. tree_of b ≡ selecting.count_chosen columns.now tests.now next) }
{
    let more = add(alloc, Term::Reg(next), Term::Number(1))?;
    let inner = Block::of(alloc, put(next, more))?;
    for_chosen(alloc, columns, tests, next, inner)
}

/// Copies the row, the column and the value of an entry.
fn copied(
    alloc: Global,
    columns: &Columns,
    to: &Columns,
    counter: u32,
    place: u32,
    next: u32,
) -> Result<Block, AllocError>
    requires { next + 4 < 2 ^ 32 }
    ensures { IfOk result (λ b. tree_of b ≡ selecting.copied columns.now to.now counter place next) }
{
    let (row, col, value) = (Term::Reg(next), Term::Reg(next + 1), Term::Reg(next + 2));
    let appended = append_entry(alloc, counter, next + 3, to, row, col, value)?;
    let mut block = Block::of(alloc, load(next, Buf::New(columns.i), Term::Reg(place)))?;
    block.push(load(next + 1, Buf::New(columns.j), Term::Reg(place)))?;
    block.push(load(next + 2, Buf::New(columns.v), Term::Reg(place)))?;
    block.append(appended)?;
    Ok(block)
}

/// Puts the entries that pass all tests into the columns `to`, in their order. Registers from `next` on are its own, six
/// and one a test. It fails only for want of memory.
pub fn copy_chosen(
    alloc: Global,
    columns: &Columns,
    tests: &[Test],
    to: &Columns,
    next: u32,
) -> Result<Block, AllocError>
    requires { next + length tests.now + 8 < 2 ^ 32 }
    ensures { IfOk result (λ b. tree_of b ≡ selecting.copy_chosen columns.now tests.now to.now next) }
{
    let inner = copied(
        alloc,
        columns,
        to,
        next,
        next + 1,
        next + 2 + tests.len() as u32,
    )?;
    for_chosen(alloc, columns, tests, next, inner)
}

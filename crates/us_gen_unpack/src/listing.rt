//! The phase that lists entries.

ghost use Rattle.std.specs.Prelude.{◌≡◌, ◌+◌, ◌*◌, ◌<◌, ◌≤◌, ◌^◌, length, IfOk};
ghost use Rattle.us_code.specs.Plain.{tree_of, phase_tree};
ghost use Rattle.us_gen_unpack.specs.Listing as list;

use sqlite_items::Items;
use std::alloc::{AllocError, Global};
use us_code::{Block, CellKind, Columns, Dim, Make, Phase, Term, var};
use us_gen::append_entry;
use us_gen_walk::{Places, end_of_walk, inside, walk};
use us_invert::PlanStep;

/// A part whose entries are listed.
#[derive(Drop)]
pub struct PartWalk {
    /// Where its buffers are.
    pub places: Places,
    /// The steps by which the indices of its entries are recovered.
    pub steps: Vec<PlanStep>,
    /// The number of the step that gives the row.
    pub row: usize,
    /// The number of the step that gives the column.
    pub col: usize,
}

/// The loops over the positions of a part, which append its entries to the columns.
fn list_part(
    alloc: Global,
    part: &PartWalk,
    columns: &Columns,
    counter: u32,
    next: u32,
) -> Result<Block, AllocError>
    requires { next + list.room part.now < 2 ^ 32 }
    ensures { IfOk result (λ b. tree_of b ≡ list.list_part columns.now counter part.now next) }
{
    let entry = inside(alloc, &part.places, &part.steps, part.row, part.col, next)?;
    let value = Term::Reg(entry.value);
    let put = append_entry(
        alloc, counter, entry.next, columns, entry.row, entry.col, value,
    )?;
    walk(alloc, &part.places, &part.steps, next, put)
}

/// The first register behind those of a part's loops.
fn end_of_part(part: &PartWalk, next: u32) -> u32
    requires { next + list.room part.now < 2 ^ 32 }
    ensures is { result ≡ list.end_of_part part.now next }
    ensures few { result ≤ next + list.room part.now }
{
    end_of_walk(&part.places, &part.steps, next) + 1
}

/// The loops of parts, one after the other.
fn list_parts(
    alloc: Global,
    parts: &[PartWalk],
    columns: &Columns,
    counter: u32,
    next: u32,
) -> Result<Block, AllocError>
    requires { next + list.rooms parts.now < 2 ^ 32 }
    ensures { IfOk result (λ b. tree_of b ≡ list.list_parts columns.now counter parts.now next) }
{
    match parts {
        [] => Ok(Block::new(alloc)),
        [first, rest @ ..] => {
            let mut block = list_part(alloc, first, columns, counter, next)?;
            let others = list_parts(alloc, rest, columns, counter, end_of_part(first, next))?;
            block.append(others)?;
            Ok(block)
        }
    }
}

/// The phase that lists the entries of parts in new columns. Register `counter` counts them; those from `counter + 1` on
/// are the loops' own. It fails only for want of memory.
pub fn listing_phase(
    alloc: Global,
    parts: &[PartWalk],
    columns: &Columns,
    counter: u32,
) -> Result<Phase, AllocError>
    requires { counter + 1 + list.rooms parts.now < 2 ^ 32 }
    ensures { IfOk result (λ p. phase_tree p ≡ list.listing_phase columns.now counter parts.now) }
{
    let mut makes = Items::new(alloc);
    makes.push(words(columns.i, columns.count))?;
    makes.push(words(columns.j, columns.count))?;
    makes.push(words(columns.v, columns.count))?;
    let mut body = Block::of(alloc, var(counter, Term::Number(0)))?;
    body.append(list_parts(alloc, parts, columns, counter, counter + 1)?)?;
    Ok(Phase {
        makes,
        body,
        dims: Items::new(alloc),
    })
}

/// A new buffer of words, as long as a dim.
fn words(buf: u32, len: u32) -> Make
    ensures { result ≡ list.words buf len }
{
    Make {
        buf,
        len: Dim::Name(len),
        cell: CellKind::Word,
    }
}

//! The blocks that read extents and count entries.

ghost use Rattle.std.specs.Prelude.{◌≡◌, ◌+◌, ◌*◌, ◌<◌, ◌^◌, length, IfOk};
ghost use Rattle.us_code.specs.Plain.{term_tree, tree_of};
ghost use Rattle.us_gen_walk.specs.Walk as walking;
ghost use Rattle.us_gen_opening.specs.Opening as opens;

use crate::parts::{Extent, Opening};
use std::alloc::{AllocError, Global};
use us_code::{Block, Buf, Dim, Term, add, div, for_below, if_else, load, put, rem, var, when};
use us_gen_walk::{Column, Loop};

/// Reads an extent from its one cell into register `next`.
fn read_extent(alloc: Global, extent: Extent, next: u32) -> Result<Block, AllocError>
    requires { next + 2 < 2 ^ 32 }
    ensures { IfOk result (λ b. tree_of b ≡ opens.read_extent extent next) }
{
    let cell = Buf::Source(extent.source);
    let mut inner = Block::of(alloc, load(next + 2, cell, Term::Reg(next + 1)))?;
    inner.push(put(next, Term::Reg(next + 2)))?;
    let test = when(Term::Number(0), Dim::Len(extent.source), next + 1, inner);
    let mut block = Block::of(alloc, var(next, Term::Number(0)))?;
    block.push(test)?;
    Ok(block)
}

/// Reads extents, with three registers from `next` on for each.
fn read_extents(alloc: Global, extents: &[Extent], next: u32) -> Result<Block, AllocError>
    requires { next + 3 * length extents.now < 2 ^ 32 }
    ensures { IfOk result (λ b. tree_of b ≡ opens.read_extents extents.now next) }
{
    match extents {
        [] => Ok(Block::new(alloc)),
        [first, rest @ ..] => {
            let mut block = read_extent(alloc, *first, next)?;
            let others = read_extents(alloc, rest, next + 3)?;
            block.append(others)?;
            Ok(block)
        }
    }
}

/// The first register behind those of extents, which are from `next` on.
fn end_of_extents(extents: &[Extent], next: u32) -> u32
    requires { next + 3 * length extents.now < 2 ^ 32 }
    ensures { result ≡ next + 3 * length extents.now }
{
    match extents {
        [] => next,
        [_first, rest @ ..] => end_of_extents(rest, next + 3),
    }
}

/// Whether the last of the levels has nodes; where there is none, whether the level before has.
fn ends_in_nodes(before: bool, loops: &[Loop]) -> bool
    ensures { result ≡ walking.ends_in_nodes before loops.now }
{
    match loops {
        [] => before,
        [first, rest @ ..] => match first {
            Loop::Full { size: _, low: _ } => ends_in_nodes(false, rest),
            Loop::Nodes {
                pos: _,
                more: _,
                nodes: _,
                crd: _,
                low: _,
            } => ends_in_nodes(true, rest),
        },
    }
}

/// How many cells a column has.
pub(crate) fn cells_term(alloc: Global, column: &Column) -> Result<Term, AllocError>
    ensures { IfOk result (λ t. term_tree t ≡ opens.cells_term column.now) }
{
    match column {
        Column::Own { source } => Ok(Term::Size(Dim::Len(*source))),
        Column::Packed {
            source,
            width,
            digit: _,
        } => div(alloc, Term::Size(Dim::Len(*source)), *width),
    }
}

/// Adds 1 to register `next` where the cell of a source isn't 0. The place is in the register behind.
fn count_cell(alloc: Global, source: u32, next: u32) -> Result<Block, AllocError>
    requires { next + 2 < 2 ^ 32 }
    ensures { IfOk result (λ b. tree_of b ≡ opens.count_cell source next) }
{
    let raised = add(alloc, Term::Reg(next), Term::Number(1))?;
    let other = Block::of(alloc, put(next, raised))?;
    let zero = Block::new(alloc);
    let test = if_else(
        Term::Reg(next + 2),
        true,
        Term::Number(0),
        zero,
        Some(other),
    );
    let read = load(next + 2, Buf::Source(source), Term::Reg(next + 1));
    let mut block = Block::of(alloc, read)?;
    block.push(test)?;
    Ok(block)
}

/// The same at the places of a column.
fn count_turn(alloc: Global, column: &Column, next: u32) -> Result<Block, AllocError>
    requires { next + 2 < 2 ^ 32 }
    ensures { IfOk result (λ b. tree_of b ≡ opens.count_turn column.now next) }
{
    match column {
        Column::Own { source } => count_cell(alloc, *source, next),
        Column::Packed {
            source,
            width,
            digit,
        } => {
            let cell = count_cell(alloc, *source, next)?;
            let place = rem(alloc, Term::Reg(next + 1), *width)?;
            Block::of(
                alloc,
                if_else(place, true, Term::Number(*digit), cell, None),
            )
        }
    }
}

/// The source of a column.
fn source_of(column: &Column) -> u32
    ensures { result ≡ opens.source_of column.now }
{
    match column {
        Column::Own { source } => *source,
        Column::Packed {
            source,
            width: _,
            digit: _,
        } => *source,
    }
}

/// Counts the cells of a column that aren't 0 in register `next`.
fn count_cells(alloc: Global, column: &Column, next: u32) -> Result<Block, AllocError>
    requires { next + 2 < 2 ^ 32 }
    ensures { IfOk result (λ b. tree_of b ≡ opens.count_cells column.now next) }
{
    let turn = count_turn(alloc, column, next)?;
    let mut block = Block::of(alloc, var(next, Term::Number(0)))?;
    block.push(for_below(next + 1, Dim::Len(source_of(column)), turn))?;
    Ok(block)
}

impl Opening {
    /// Whether each value is that of an entry.
    fn is_tight(&self) -> bool
        ensures { result ≡ opens.is_tight self.now }
    {
        ends_in_nodes(false, &self.loops)
    }

    /// The first register behind those of the extents, which are from `next` on.
    pub(crate) fn counter(&self, next: u32) -> u32
        requires { next + 3 * length self.now.extents.items < 2 ^ 32 }
        ensures { result ≡ opens.counter self.now next }
    {
        end_of_extents(&self.extents, next)
    }

    /// Counts the entries in register `next`, where their number isn't that of the values.
    fn count(&self, alloc: Global, next: u32) -> Result<Block, AllocError>
        requires { next + 2 < 2 ^ 32 }
        ensures { IfOk result (λ b. tree_of b ≡ opens.count_part self.now next) }
    {
        if self.is_tight() {
            Ok(Block::new(alloc))
        } else {
            count_cells(alloc, &self.values, next)
        }
    }

    /// The number of entries. It is in register `next`, if it was counted.
    pub(crate) fn term(&self, alloc: Global, next: u32) -> Result<Term, AllocError>
        ensures { IfOk result (λ t. term_tree t ≡ opens.part_term self.now next) }
    {
        if self.is_tight() {
            cells_term(alloc, &self.values)
        } else {
            Ok(Term::Reg(next))
        }
    }
}

/// Reads the extents and counts the entries, part by part, with registers from `next` on.
pub(crate) fn opening_code(alloc: Global, parts: &[Opening], next: u32) -> Result<Block, AllocError>
    requires { next + opens.rooms parts.now < 2 ^ 32 }
    ensures { IfOk result (λ b. tree_of b ≡ opens.opening_code parts.now next) }
{
    match parts {
        [] => Ok(Block::new(alloc)),
        [first, rest @ ..] => {
            let counter = first.counter(next);
            let mut counts = first.count(alloc, counter)?;
            counts.append(opening_code(alloc, rest, counter + 3)?)?;
            let mut block = read_extents(alloc, &first.extents, next)?;
            block.append(counts)?;
            Ok(block)
        }
    }
}

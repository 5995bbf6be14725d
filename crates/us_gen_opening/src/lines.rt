//! The dim lines of extents, nodes and entries.

ghost use Rattle.std.specs.Prelude.{◌≡◌, ◌+◌, ◌*◌, ◌<◌, ◌^◌, ◌++◌, map, length, IfOk};
ghost use Rattle.us_code.specs.Plain.{term_tree, line_tree};
ghost use Rattle.us_gen_opening.specs.Opening as opens;

use crate::counting::cells_term;
use crate::parts::{Extent, Opening};
use std::alloc::{AllocError, Global};
use us_code::{Dim, DimLine, DimLines, Term, add};
use us_gen_walk::{Column, Loop};

/// Puts the lines of extents behind others. Each extent is in the first of three registers.
fn push_extent_lines(lines: &mut DimLines, extents: &[Extent], next: u32) -> Result<(), AllocError>
    requires { next + 3 * length extents.now < 2 ^ 32 }
    ensures { IfOk result (λ _. map line_tree lines.new ≡ map line_tree lines.old ++ opens.extent_lines extents.now next) }
{
    match extents {
        [] => Ok(()),
        [first, rest @ ..] => {
            lines.push(DimLine::Of {
                dim: first.dim,
                value: Term::Reg(next),
            })?;
            push_extent_lines(lines, rest, next + 3)
        }
    }
}

/// Puts a line for the number of nodes behind others, where their coordinates are in a pack.
fn push_nodes(
    alloc: Global,
    lines: &mut DimLines,
    crd: &Column,
    nodes: Dim,
) -> Result<(), AllocError>
    ensures { IfOk result (λ _. map line_tree lines.new ≡ map line_tree lines.old ++ opens.nodes_lines crd.now nodes) }
{
    match crd {
        Column::Own { source: _ } => Ok(()),
        Column::Packed {
            source: _,
            width: _,
            digit: _,
        } => match nodes {
            Dim::Name(dim) => {
                let value = cells_term(alloc, crd)?;
                lines.push(DimLine::Of { dim, value })
            }
            Dim::Number(_) => Ok(()),
            Dim::Len(_) => Ok(()),
        },
    }
}

/// Puts a line for one more than the nodes behind others.
fn push_more(lines: &mut DimLines, more: Dim, nodes: Dim) -> Result<(), AllocError>
    ensures { IfOk result (λ _. map line_tree lines.new ≡ map line_tree lines.old ++ opens.more_lines more nodes) }
{
    match more {
        Dim::Name(dim) => lines.push(DimLine::Next { dim, of: nodes }),
        Dim::Number(_) => Ok(()),
        Dim::Len(_) => Ok(()),
    }
}

/// Puts the lines of a level behind others.
fn push_level(alloc: Global, lines: &mut DimLines, level: &Loop) -> Result<(), AllocError>
    ensures { IfOk result (λ _. map line_tree lines.new ≡ map line_tree lines.old ++ opens.level_lines level.now) }
{
    match level {
        Loop::Full { size: _, low: _ } => Ok(()),
        Loop::Nodes {
            pos: _,
            more,
            nodes,
            crd,
            low: _,
        } => {
            push_nodes(alloc, lines, crd, *nodes)?;
            push_more(lines, *more, *nodes)
        }
    }
}

/// Puts the lines of levels behind others.
fn push_levels(alloc: Global, lines: &mut DimLines, levels: &[Loop]) -> Result<(), AllocError>
    ensures { IfOk result (λ _. map line_tree lines.new ≡ map line_tree lines.old ++ opens.loop_lines levels.now) }
{
    match levels {
        [] => Ok(()),
        [first, rest @ ..] => {
            push_level(alloc, lines, first)?;
            push_levels(alloc, lines, rest)
        }
    }
}

/// Puts the lines of parts behind others, and a last one behind them.
pub(crate) fn push_lines(
    alloc: Global,
    lines: &mut DimLines,
    parts: &[Opening],
    next: u32,
    last: DimLine,
) -> Result<(), AllocError>
    requires { next + opens.rooms parts.now < 2 ^ 32 }
    ensures { IfOk result (λ _. map line_tree lines.new ≡ map line_tree lines.old ++ opens.opening_lines parts.now next (line_tree last)) }
{
    match parts {
        [] => lines.push(last),
        [first, rest @ ..] => {
            push_extent_lines(lines, &first.extents, next)?;
            push_levels(alloc, lines, &first.loops)?;
            push_lines(alloc, lines, rest, first.counter(next) + 3, last)
        }
    }
}

/// The sum of a term and the numbers of entries of parts.
fn add_terms(alloc: Global, sum: Term, parts: &[Opening], next: u32) -> Result<Term, AllocError>
    requires { next + opens.rooms parts.now < 2 ^ 32 }
    ensures { IfOk result (λ t. term_tree t ≡ opens.add_terms (term_tree sum) parts.now next) }
{
    match parts {
        [] => Ok(sum),
        [first, rest @ ..] => {
            let counter = first.counter(next);
            let more = add(alloc, sum, first.term(alloc, counter)?)?;
            add_terms(alloc, more, rest, counter + 3)
        }
    }
}

/// The number of entries of all parts.
pub(crate) fn total_term(alloc: Global, parts: &[Opening], next: u32) -> Result<Term, AllocError>
    requires { next + opens.rooms parts.now < 2 ^ 32 }
    ensures { IfOk result (λ t. term_tree t ≡ opens.total_term parts.now next) }
{
    match parts {
        [] => Ok(Term::Number(0)),
        [first, rest @ ..] => {
            let counter = first.counter(next);
            add_terms(alloc, first.term(alloc, counter)?, rest, counter + 3)
        }
    }
}

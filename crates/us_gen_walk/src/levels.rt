//! The code of one level, and of all levels of one sort.

ghost use Rattle.std.specs.Prelude.{◌≡◌, ◌+◌, ◌*◌, ◌<◌, ◌≤◌, ◌^◌, ◌++◌, [], ◌∷◌, length, IfOk};
ghost use Rattle.us_code.specs.Plain.{term_tree, tree_of};
ghost use Rattle.us_gen.specs.Levels as nests;
ghost use Rattle.us_gen_walk.specs.Walk as walking;

use crate::places::{Column, Loop, Slot};
use std::alloc::{AllocError, Global};
use us_code::{Block, Term};
use us_gen::Level;
use us_gen_recover::Coordinate;

impl Column {
    /// The read of a cell at a position, under a test.
    pub(crate) fn tested(&self) -> Level
        ensures { result ≡ walking.tested self.now }
    {
        match self {
            Column::Own { source } => Level::Cell { crd: *source },
            Column::Packed {
                source,
                width,
                digit,
            } => Level::Packed {
                pack: *source,
                width: *width,
                digit: *digit,
            },
        }
    }

    /// The read of a cell at a node, which is in range by its kind where the column has a source of its own.
    fn at_node(&self) -> Level
        ensures { result ≡ walking.at_node self.now }
    {
        match self {
            Column::Own { source } => Level::Crd { crd: *source },
            Column::Packed {
                source: _,
                width: _,
                digit: _,
            } => self.tested(),
        }
    }

    /// The register of the coordinate that is read at a node.
    fn register_at_node(&self, next: u32) -> u32
        requires { next + 1 < 2 ^ 32 }
        ensures { result ≡ nests.coordinate (walking.at_node self.now) next }
    {
        match self {
            Column::Own { source: _ } => next,
            Column::Packed {
                source: _,
                width: _,
                digit: _,
            } => next + 1,
        }
    }
}

impl Loop {
    /// Whether the positions are nodes.
    fn is_nodes(&self) -> bool
        ensures { result ≡ walking.is_nodes self.now }
    {
        match self {
            Loop::Full { size: _, low: _ } => false,
            Loop::Nodes {
                pos: _,
                more: _,
                nodes: _,
                crd: _,
                low: _,
            } => true,
        }
    }

    /// The first register behind the level's own, which are from `next` on.
    pub(crate) fn end(&self, next: u32) -> u32
        requires { next + 16 < 2 ^ 32 }
        ensures is { result ≡ nests.end_of (walking.levels_of self.now) next }
        ensures after { next ≤ result }
        ensures few { result ≤ next + 14 }
    {
        match self {
            Loop::Full { size: _, low: _ } => next + 1,
            Loop::Nodes {
                pos: _,
                more: _,
                nodes: _,
                crd,
                low: _,
            } => next + 7 + crd.at_node().names(),
        }
    }

    /// The term of the position inside, under this one.
    fn position(&self, alloc: Global, position: &Term, next: u32) -> Result<Term, AllocError>
        requires { next + 16 < 2 ^ 32 }
        ensures { IfOk result (λ t. term_tree t ≡ nests.position_in (walking.levels_of self.now) (term_tree position.now) next) }
    {
        match self {
            Loop::Full { size, low: _ } => Level::Full { size: *size }.position(
                alloc, position, next,
            ),
            Loop::Nodes {
                pos: _,
                more: _,
                nodes: _,
                crd: _,
                low: _,
            } => Ok(Term::Reg(next + 6)),
        }
    }

    /// The level's loop around a block.
    fn around(
        &self,
        alloc: Global,
        position: &Term,
        next: u32,
        inner: Block,
    ) -> Result<Block, AllocError>
        requires { next + 24 < 2 ^ 32 }
        ensures { IfOk result (λ b. tree_of b ≡ nests.nest (walking.levels_of self.now) (term_tree position.now) next (tree_of inner)) }
    {
        match self {
            Loop::Full { size, low: _ } => {
                Level::Full { size: *size }.around(alloc, position, next, inner)
            }
            Loop::Nodes {
                pos,
                more,
                nodes,
                crd,
                low: _,
            } => {
                let read = crd
                    .at_node()
                    .around(alloc, &Term::Reg(next + 6), next + 7, inner)?;
                let level = Level::Nodes {
                    pos: *pos,
                    more: *more,
                    nodes: *nodes,
                };
                level.around(alloc, position, next, read)
            }
        }
    }

    /// The level's coordinate.
    fn coordinate(&self, next: u32) -> Coordinate
        requires { next + 16 < 2 ^ 32 }
        ensures { result ≡ walking.loop_coordinate self.now next }
    {
        match self {
            Loop::Full { size: _, low } => Coordinate {
                reg: next,
                low: *low,
            },
            Loop::Nodes {
                pos: _,
                more: _,
                nodes: _,
                crd,
                low,
            } => Coordinate {
                reg: crd.register_at_node(next + 7),
                low: *low,
            },
        }
    }
}

/// Whether the last of the levels has nodes; where there is none, whether the level before has.
pub(crate) fn ends_in_nodes(before: bool, loops: &[Loop]) -> bool
    ensures { result ≡ walking.ends_in_nodes before loops.now }
{
    match loops {
        [] => before,
        [first, rest @ ..] => ends_in_nodes(first.is_nodes(), rest),
    }
}

/// The first register behind those of the levels, which are from `next` on.
pub(crate) fn end_of_loops(loops: &[Loop], next: u32) -> u32
    requires { next + 14 * length loops.now + 16 < 2 ^ 32 }
    ensures is { result ≡ nests.end_of (walking.loop_levels loops.now) next }
    ensures after { next ≤ result }
    ensures few { result ≤ next + 14 * length loops.now }
{
    match loops {
        [] => next,
        [first, rest @ ..] => end_of_loops(rest, first.end(next)),
    }
}

/// The term of the position inside the levels, under this one.
pub(crate) fn position_in_loops(
    alloc: Global,
    loops: &[Loop],
    position: Term,
    next: u32,
) -> Result<Term, AllocError>
    requires { next + 14 * length loops.now + 16 < 2 ^ 32 }
    ensures { IfOk result (λ t. term_tree t ≡ nests.position_in (walking.loop_levels loops.now) (term_tree position) next) }
{
    match loops {
        [] => Ok(position),
        [first, rest @ ..] => {
            let place = first.position(alloc, &position, next)?;
            position_in_loops(alloc, rest, place, first.end(next))
        }
    }
}

/// The loops of levels around a block, the outermost level first.
pub(crate) fn around_loops(
    alloc: Global,
    loops: &[Loop],
    position: &Term,
    next: u32,
    inner: Block,
) -> Result<Block, AllocError>
    requires { next + 14 * length loops.now + 24 < 2 ^ 32 }
    ensures { IfOk result (λ b. tree_of b ≡ nests.nest (walking.loop_levels loops.now) (term_tree position.now) next (tree_of inner)) }
{
    match loops {
        [] => Ok(inner),
        [first, rest @ ..] => {
            let place = first.position(alloc, position, next)?;
            let block = around_loops(alloc, rest, &place, first.end(next), inner)?;
            first.around(alloc, position, next, block)
        }
    }
}

/// Puts the coordinates of levels behind others.
pub(crate) fn push_loop_coordinates(
    coordinates: &mut Vec<Coordinate>,
    loops: &[Loop],
    next: u32,
) -> Result<(), AllocError>
    requires { next + 14 * length loops.now + 16 < 2 ^ 32 }
    ensures { IfOk result (λ _. coordinates.new.items ≡ coordinates.old.items ++ walking.loop_coordinates loops.now next) }
{
    match loops {
        [] => Ok(()),
        [first, rest @ ..] => {
            coordinates.push(first.coordinate(next))?;
            push_loop_coordinates(coordinates, rest, first.end(next))
        }
    }
}

/// The first register behind those of slot levels, which are from `next` on.
pub(crate) fn end_of_slots(slots: &[Slot], next: u32) -> u32
    requires { next + 2 * length slots.now < 2 ^ 32 }
    ensures is { result ≡ next + 2 * length slots.now }
{
    match slots {
        [] => next,
        [_first, rest @ ..] => end_of_slots(rest, next + 2),
    }
}

/// The reads of slot levels around a block.
pub(crate) fn around_slots(
    alloc: Global,
    slots: &[Slot],
    position: &Term,
    next: u32,
    inner: Block,
) -> Result<Block, AllocError>
    requires { next + 2 * length slots.now + 16 < 2 ^ 32 }
    ensures { IfOk result (λ b. tree_of b ≡ nests.nest (walking.slot_levels slots.now) (term_tree position.now) next (tree_of inner)) }
{
    match slots {
        [] => Ok(inner),
        [first, rest @ ..] => {
            let block = around_slots(alloc, rest, position, next + 2, inner)?;
            first.crd.tested().around(alloc, position, next, block)
        }
    }
}

/// Puts the coordinates of slot levels behind others.
pub(crate) fn push_slot_coordinates(
    coordinates: &mut Vec<Coordinate>,
    slots: &[Slot],
    next: u32,
) -> Result<(), AllocError>
    requires { next + 2 * length slots.now < 2 ^ 32 }
    ensures { IfOk result (λ _. coordinates.new.items ≡ coordinates.old.items ++ walking.slot_coordinates slots.now next) }
{
    match slots {
        [] => Ok(()),
        [first, rest @ ..] => {
            coordinates.push(Coordinate {
                reg: next + 1,
                low: first.low,
            })?;
            push_slot_coordinates(coordinates, rest, next + 2)
        }
    }
}

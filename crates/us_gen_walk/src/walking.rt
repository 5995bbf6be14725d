//! The loops that list the entries of a part.

ghost use Rattle.std.specs.Prelude.{◌≡◌, ◌+◌, ◌*◌, ◌<◌, ◌≤◌, ◌^◌, length, IfOk};
ghost use Rattle.us_code.specs.Plain.{term_tree, tree_of};
ghost use Rattle.us_gen_walk.specs.Walk as walking;

use crate::levels::{
    around_loops, around_slots, end_of_loops, end_of_slots, ends_in_nodes, position_in_loops,
    push_loop_coordinates, push_slot_coordinates,
};
use crate::places::Places;
use std::alloc::{AllocError, Global};
use us_code::{Block, Term, if_else};
use us_gen_recover::{Coordinate, names_in, recover, term_at};
use us_invert::PlanStep;

/// What stands for an entry inside the loops.
#[derive(Drop)]
pub struct EntryTerms {
    /// The row.
    pub row: Term,
    /// The column.
    pub col: Term,
    /// The register of the value.
    pub value: u32,
    /// The first register that the loops leave free.
    pub next: u32,
}

/// The coordinates of all levels.
fn coordinates(alloc: Global, places: &Places, next: u32) -> Result<Vec<Coordinate>, AllocError>
    requires { next + 14 * length places.now.loops.items + 2 * length places.now.slots.items + 32 < 2 ^ 32 }
    ensures { IfOk result (λ xs. xs.items ≡ walking.coordinates places.now next) }
{
    let mut all = Vec::new(alloc);
    push_loop_coordinates(&mut all, &places.loops, next)?;
    let leaf = end_of_loops(&places.loops, next);
    push_slot_coordinates(&mut all, &places.slots, leaf + 2)?;
    Ok(all)
}

/// Does a block only where the value in a register isn't 0. Where each position is that of an entry, there is no test.
fn unless_zero(alloc: Global, tight: bool, value: u32, inner: Block) -> Result<Block, AllocError>
    ensures { IfOk result (λ b. tree_of b ≡ walking.unless_zero tight value (tree_of inner)) }
{
    if tight {
        Ok(inner)
    } else {
        let nothing = Block::new(alloc);
        let test = if_else(
            Term::Reg(value),
            true,
            Term::Number(0),
            nothing,
            Some(inner),
        );
        Block::of(alloc, test)
    }
}

/// The read of the value at a position, and what is done for its entry.
fn leaf(
    alloc: Global,
    places: &Places,
    position: &Term,
    next: u32,
    inner: Block,
) -> Result<Block, AllocError>
    requires { next + 2 * length places.now.slots.items + 32 < 2 ^ 32 }
    ensures { IfOk result (λ b. tree_of b ≡ walking.leaf places.now (term_tree position.now) next (tree_of inner)) }
{
    let slots = around_slots(alloc, &places.slots, position, next + 2, inner)?;
    let tight = ends_in_nodes(false, &places.loops);
    let entry = unless_zero(alloc, tight, next + 1, slots)?;
    places.values.tested().around(alloc, position, next, entry)
}

/// The loops over the positions of a part, around a block that is done for each entry, where the steps of a plan recover
/// its indices. Registers from `next` on are the loops' own. It fails only for want of memory.
pub fn walk(
    alloc: Global,
    places: &Places,
    steps: &[PlanStep],
    next: u32,
    inner: Block,
) -> Result<Block, AllocError>
    requires { next + 14 * length places.now.loops.items + 2 * length places.now.slots.items + 2 * length steps.now + 64 < 2 ^ 32 }
    ensures { IfOk result (λ b. tree_of b ≡ walking.walk places.now steps.now next (tree_of inner)) }
{
    let levels = coordinates(alloc, places, next)?;
    let value = end_of_loops(&places.loops, next);
    let slots = end_of_slots(&places.slots, value + 2);
    let entry = recover(alloc, &levels, &places.tables, steps, slots, inner)?;
    let position = position_in_loops(alloc, &places.loops, Term::Number(0), next)?;
    let block = leaf(alloc, places, &position, value, entry)?;
    around_loops(alloc, &places.loops, &Term::Number(0), next, block)
}

/// The first register that the loops leave free, where theirs are from `next` on.
pub fn end_of_walk(places: &Places, steps: &[PlanStep], next: u32) -> u32
    requires { next + 14 * length places.now.loops.items + 2 * length places.now.slots.items + 2 * length steps.now + 64 < 2 ^ 32 }
    ensures is { result ≡ walking.end places.now steps.now next }
    ensures few { result ≤ next + 14 * length places.now.loops.items + 2 * length places.now.slots.items + 2 * length steps.now + 2 }
    ensures after { next ≤ result }
{
    let value = end_of_loops(&places.loops, next);
    end_of_slots(&places.slots, value + 2) + names_in(steps)
}

/// What stands for an entry inside the loops, where the steps with the numbers `row` and `col` give its indices. It
/// fails only for want of memory.
pub fn inside(
    alloc: Global,
    places: &Places,
    steps: &[PlanStep],
    row: usize,
    col: usize,
    next: u32,
) -> Result<EntryTerms, AllocError>
    requires { next + 14 * length places.now.loops.items + 2 * length places.now.slots.items + 2 * length steps.now + 64 < 2 ^ 32 }
    ensures row { IfOk result (λ x. term_tree x.row ≡ walking.index_term places.now steps.now next row) }
    ensures col { IfOk result (λ x. term_tree x.col ≡ walking.index_term places.now steps.now next col) }
    ensures value { IfOk result (λ x. x.value ≡ walking.value_register places.now next) }
    ensures next { IfOk result (λ x. x.next ≡ walking.end places.now steps.now next) }
{
    let levels = coordinates(alloc, places, next)?;
    let value = end_of_loops(&places.loops, next);
    let slots = end_of_slots(&places.slots, value + 2);
    let row = term_at(alloc, &levels, steps, slots, row)?;
    let col = term_at(alloc, &levels, steps, slots, col)?;
    Ok(EntryTerms {
        row,
        col,
        value: value + 1,
        next: slots + names_in(steps),
    })
}

//! Loops that spread the rows or the columns over lanes.

ghost use Rattle.std.specs.Prelude.{◌≡◌, ◌+◌, ◌<◌, ◌^◌, IfOk};
ghost use Rattle.us_code.specs.Plain.{alone, term_tree, tree_of};
ghost use Rattle.us_code.specs.Plain as plain;
ghost use Rattle.us_gen_query.specs.Scheduling as scheduling;

use crate::reordering::at_index;
use std::alloc::{AllocError, Global};
use us_code::{
    Block, Buf, Columns, Dim, Stmt, Term, add, for_below, if_else, load, mul, put, set, var, when,
};

/// The buffers of a schedule.
#[derive(Clone, Copy, Debug, PartialEq, Eq)]
pub struct ScheduleBuffers {
    /// How many entries each index has.
    pub counts: u32,
    /// The lane of each index.
    pub lane: u32,
    /// Its slot in the lane.
    pub slot: u32,
    /// How many entries each lane has.
    pub loads: u32,
    /// How many of its slots are used.
    pub used: u32,
    /// The most slots of a lane.
    pub extent: u32,
    /// The lane of each entry's index.
    pub lanes: u32,
    /// Its slot.
    pub slots: u32,
}

/// One more in buffer `counts` at the index.
fn one_more(alloc: Global, counts: u32, next: u32) -> Result<Block, AllocError>
    requires { next + 18 < 2 ^ 32 }
    ensures { IfOk result (λ b. tree_of b ≡ scheduling.one_more counts next) }
{
    let more = add(alloc, Term::Reg(next + 3), Term::Number(1))?;
    let mut block = Block::of(alloc, load(next + 3, Buf::New(counts), Term::Reg(next + 2)))?;
    block.push(set(Buf::New(counts), Term::Reg(next + 2), more))?;
    Ok(block)
}

/// Compares a lane's load with the least so far.
fn lane_turn(alloc: Global, loads: u32, next: u32) -> Result<Block, AllocError>
    requires { next + 18 < 2 ^ 32 }
    ensures { IfOk result (λ b. tree_of b ≡ scheduling.lane_turn loads next) }
{
    let mut lower = Block::of(alloc, put(next + 3, Term::Reg(next + 5)))?;
    lower.push(put(next + 2, Term::Reg(next + 4)))?;
    let mut block = Block::of(alloc, load(next + 5, Buf::New(loads), Term::Reg(next + 4)))?;
    let low = Term::Reg(next + 3);
    block.push(if_else(Term::Reg(next + 5), false, low, lower, None))?;
    Ok(block)
}

/// Finds the first lane of least load.
fn least(alloc: Global, loads: u32, lanes: u32, next: u32) -> Result<Block, AllocError>
    requires { next + 18 < 2 ^ 32 }
    ensures { IfOk result (λ b. tree_of b ≡ scheduling.least loads lanes next plain.End) }
{
    let body = lane_turn(alloc, loads, next)?;
    let mut block = Block::of(alloc, var(next + 2, Term::Number(0)))?;
    block.push(var(next + 3, Term::Number(9223372036854775807)))?;
    block.push(for_below(next + 4, Dim::Number(lanes as u64), body))?;
    Ok(block)
}

fn slots(alloc: Global, next: u32) -> Result<Term, AllocError>
    requires { next + 18 < 2 ^ 32 }
    ensures { IfOk result (λ t. term_tree t ≡ scheduling.slots next) }
{
    add(alloc, Term::Reg(next + 8), Term::Number(1))
}

/// Keeps the most slots of a lane.
fn most(alloc: Global, next: u32) -> Result<Stmt, AllocError>
    requires { next + 18 < 2 ^ 32 }
    ensures { IfOk result (λ s. alone s ≡ scheduling.most next) }
{
    let body = Block::of(alloc, put(next, slots(alloc, next)?))?;
    let length = slots(alloc, next)?;
    Ok(if_else(Term::Reg(next), false, length, body, None))
}

/// Gives the index a slot of the lane.
fn take_slot(alloc: Global, buffers: &ScheduleBuffers, next: u32) -> Result<Block, AllocError>
    requires { next + 18 < 2 ^ 32 }
    ensures { IfOk result (λ b. tree_of b ≡ scheduling.take_slot buffers.now next) }
{
    let lane = next + 7;
    let load_now = add(alloc, Term::Reg(next + 3), Term::Reg(next + 6))?;
    let used_now = slots(alloc, next)?;
    let keep = most(alloc, next)?;
    let mut block = Block::of(
        alloc,
        load(next + 8, Buf::New(buffers.used), Term::Reg(lane)),
    )?;
    block.push(set(Buf::New(buffers.lane), Term::Reg(next + 1), Term::Reg(lane)))?;
    block.push(set(
        Buf::New(buffers.slot),
        Term::Reg(next + 1),
        Term::Reg(next + 8),
    ))?;
    block.push(set(Buf::New(buffers.used), Term::Reg(lane), used_now))?;
    block.push(set(Buf::New(buffers.loads), Term::Reg(lane), load_now))?;
    block.push(keep)?;
    Ok(block)
}

fn spread_turn(
    alloc: Global,
    buffers: &ScheduleBuffers,
    lanes: u32,
    next: u32,
) -> Result<Block, AllocError>
    requires { next + 18 < 2 ^ 32 }
    ensures { IfOk result (λ b. tree_of b ≡ scheduling.spread_turn buffers.now lanes next) }
{
    let taken = take_slot(alloc, buffers, next)?;
    let mut block = least(alloc, buffers.loads, lanes, next)?;
    block.push(load(next + 6, Buf::New(buffers.counts), Term::Reg(next + 1)))?;
    let all = Dim::Number(lanes as u64);
    block.push(when(Term::Reg(next + 2), all, next + 7, taken))?;
    Ok(block)
}

/// Spreads the indices, in order, each into the first lane of least load.
fn spread(
    alloc: Global,
    size: Dim,
    buffers: &ScheduleBuffers,
    lanes: u32,
    next: u32,
) -> Result<Block, AllocError>
    requires { next + 18 < 2 ^ 32 }
    ensures { IfOk result (λ b. tree_of b ≡ scheduling.spread size buffers.now lanes next) }
{
    let body = spread_turn(alloc, buffers, lanes, next)?;
    let mut block = Block::of(alloc, var(next, Term::Number(0)))?;
    block.push(for_below(next + 1, size, body))?;
    block.push(set(Buf::New(buffers.extent), Term::Number(0), Term::Reg(next)))?;
    Ok(block)
}

/// The entry's lane and slot are those of its index.
fn both_looked_up(alloc: Global, buffers: &ScheduleBuffers, next: u32) -> Result<Block, AllocError>
    requires { next + 5 < 2 ^ 32 }
    ensures { IfOk result (λ b. tree_of b ≡ scheduling.both_looked_up buffers.now next) }
{
    let index = next + 2;
    let mut block = Block::of(
        alloc,
        load(next + 3, Buf::New(buffers.lane), Term::Reg(index)),
    )?;
    block.push(set(
        Buf::New(buffers.lanes),
        Term::Reg(next),
        Term::Reg(next + 3),
    ))?;
    block.push(load(next + 4, Buf::New(buffers.slot), Term::Reg(index)))?;
    block.push(set(
        Buf::New(buffers.slots),
        Term::Reg(next),
        Term::Reg(next + 4),
    ))?;
    Ok(block)
}

/// Counts the entries of each index, which buffer `indices` holds for each entry, spreads the `size` indices over the
/// lanes, each in order into the first lane of least load, and gives each entry its index's lane and slot. Registers
/// from `next` on are its own, 18 at most. It fails only for want of memory.
pub fn schedule(
    alloc: Global,
    columns: &Columns,
    indices: u32,
    size: Dim,
    lanes: u32,
    buffers: &ScheduleBuffers,
    next: u32,
) -> Result<Block, AllocError>
    requires { next + 22 < 2 ^ 32 }
    ensures { IfOk result (λ b. tree_of b ≡ scheduling.schedule columns.now indices size lanes buffers.now next) }
{
    let counted = one_more(alloc, buffers.counts, next)?;
    let found = both_looked_up(alloc, buffers, next + 13)?;
    let mut block = at_index(alloc, columns, indices, size, next, counted)?;
    let mut back = spread(alloc, size, buffers, lanes, next + 4)?;
    back.append(at_index(alloc, columns, indices, size, next + 13, found)?)?;
    block.append(back)?;
    Ok(block)
}

/// The table of the lanes: buffer `table` gets at each lane and slot the index there, plus 1. The dim `extent` is the
/// slots of a lane, the dim `cells` the length of the table. Registers from `next` on are its own, four.
pub fn rows(
    alloc: Global,
    size: Dim,
    buffers: &ScheduleBuffers,
    cells: Dim,
    extent: u32,
    table: u32,
    next: u32,
) -> Result<Block, AllocError>
    requires { next + 4 < 2 ^ 32 }
    ensures { IfOk result (λ b. tree_of b ≡ scheduling.rows size buffers.now cells extent table next) }
{
    let start = mul(alloc, Term::Reg(next + 1), Term::Size(Dim::Name(extent)))?;
    let place = add(alloc, start, Term::Reg(next + 2))?;
    let more = add(alloc, Term::Reg(next), Term::Number(1))?;
    let found = Block::of(alloc, set(Buf::New(table), Term::Reg(next + 3), more))?;
    let mut body = Block::of(
        alloc,
        load(next + 1, Buf::New(buffers.lane), Term::Reg(next)),
    )?;
    body.push(load(next + 2, Buf::New(buffers.slot), Term::Reg(next)))?;
    body.push(when(place, cells, next + 3, found))?;
    Block::of(alloc, for_below(next, size, body))
}

//! The code of a plan's steps, one after the other.

ghost use Rattle.std.specs.Prelude.{◌≡◌, ℕ, ◌+◌, ◌*◌, ◌<◌, ◌≤◌, ◌^◌, length, map, IfOk, []};
ghost use Rattle.us_code.specs.Plain.{Code, term_tree, tree_of, ◌+++◌};
ghost use Rattle.us_gen_recover.specs.Recovery as recovery;

use crate::places::{Coordinate, Table, coordinate_at, level_term, size_term, table_at};
use std::alloc::{AllocError, Global};
use us_code::{Block, Buf, Dim, Term, add, div, let_reg, load, mul, rem, sub, when};
use us_invert::PlanStep;

/// What a step does in front of those behind it.
#[derive(Drop)]
enum Work {
    Nothing,
    /// Makes a register of this value.
    Value(Term),
    /// Reads the cell at a place of a source, under the test that it has one.
    Cell { source: u32, at: Term },
}

/// How many registers a step names. Its code takes as many steps.
fn names(step: &PlanStep) -> u32
    ensures count { result ≡ recovery.names step.now }
    ensures few { result ≤ 2 }
{
    match step {
        PlanStep::Const { value: _ } => 0,
        PlanStep::Level { level: _ } => 0,
        PlanStep::Add { a: _, b: _ } => 1,
        PlanStep::Sub { a: _, b: _ } => 1,
        PlanStep::Join {
            quotient: _,
            remainder: _,
            k: _,
        } => 1,
        PlanStep::Div { a: _, k: _ } => 1,
        PlanStep::Rem { a: _, k: _ } => 1,
        PlanStep::Order { query: _, rank: _ } => 2,
        PlanStep::Rows {
            query: _,
            lane: _,
            slot: _,
        } => 2,
    }
}

/// The term of a step's value. Registers from `next` on are the step's own.
fn step_term(
    alloc: Global,
    levels: &[Coordinate],
    step: &PlanStep,
    next: u32,
) -> Result<Term, AllocError>
    requires { next + 2 < 2 ^ 32 }
    ensures { IfOk result (λ t. term_tree t ≡ recovery.step_term levels.now step.now next) }
{
    match step {
        PlanStep::Const { value } => Ok(Term::Number(*value as u64)),
        PlanStep::Level { level } => level_term(alloc, coordinate_at(levels, *level)),
        PlanStep::Add { a: _, b: _ } => Ok(Term::Reg(next)),
        PlanStep::Sub { a: _, b: _ } => Ok(Term::Reg(next)),
        PlanStep::Join {
            quotient: _,
            remainder: _,
            k: _,
        } => Ok(Term::Reg(next)),
        PlanStep::Div { a: _, k: _ } => Ok(Term::Reg(next)),
        PlanStep::Rem { a: _, k: _ } => Ok(Term::Reg(next)),
        PlanStep::Order { query: _, rank: _ } => Ok(Term::Reg(next + 1)),
        PlanStep::Rows {
            query: _,
            lane: _,
            slot: _,
        } => sub(alloc, Term::Reg(next + 1), Term::Number(1)),
    }
}

/// The term of an earlier step.
fn operand(alloc: Global, known: &[Term], step: u32) -> Result<Term, AllocError>
    ensures { IfOk result (λ t. term_tree t ≡ recovery.operand (map term_tree known.now) step) }
{
    match known.get(step as usize) {
        Some(term) => term.copy(alloc),
        None => Ok(Term::Number(0)),
    }
}

/// The quotient times `k`, plus the remainder.
fn joined(
    alloc: Global,
    known: &[Term],
    quotient: u32,
    remainder: u32,
    k: u32,
) -> Result<Term, AllocError>
    ensures { IfOk result (λ t. term_tree t ≡ recovery.joined (map term_tree known.now) quotient remainder k) }
{
    let whole = mul(
        alloc,
        operand(alloc, known, quotient)?,
        Term::Number(k as u64),
    )?;
    add(alloc, whole, operand(alloc, known, remainder)?)
}

/// The place of a lane and a slot in the table of a schedule.
fn place_of(
    alloc: Global,
    known: &[Term],
    extent: Dim,
    lane: u32,
    slot: u32,
) -> Result<Term, AllocError>
    ensures { IfOk result (λ t. term_tree t ≡ recovery.place_in (map term_tree known.now) extent lane slot) }
{
    let start = mul(alloc, operand(alloc, known, lane)?, size_term(extent))?;
    add(alloc, start, operand(alloc, known, slot)?)
}

/// What a step does in front of those behind it, where `known` are the terms of the earlier steps.
fn work_of(
    alloc: Global,
    tables: &[Table],
    step: &PlanStep,
    known: &[Term],
) -> Result<Work, AllocError>
    ensures { IfOk result (λ w. recovery.work_tree w ≡ recovery.work tables.now step.now (map term_tree known.now)) }
{
    match step {
        PlanStep::Const { value: _ } => Ok(Work::Nothing),
        PlanStep::Level { level: _ } => Ok(Work::Nothing),
        PlanStep::Add { a, b } => Ok(Work::Value(add(
            alloc,
            operand(alloc, known, *a)?,
            operand(alloc, known, *b)?,
        )?)),
        PlanStep::Sub { a, b } => Ok(Work::Value(sub(
            alloc,
            operand(alloc, known, *a)?,
            operand(alloc, known, *b)?,
        )?)),
        PlanStep::Join {
            quotient,
            remainder,
            k,
        } => Ok(Work::Value(joined(alloc, known, *quotient, *remainder, *k)?)),
        PlanStep::Div { a, k } => Ok(Work::Value(div(
            alloc,
            operand(alloc, known, *a)?,
            *k as u64,
        )?)),
        PlanStep::Rem { a, k } => Ok(Work::Value(rem(
            alloc,
            operand(alloc, known, *a)?,
            *k as u64,
        )?)),
        PlanStep::Order { query, rank } => Ok(Work::Cell {
            source: table_at(tables, *query).source,
            at: operand(alloc, known, *rank)?,
        }),
        PlanStep::Rows { query, lane, slot } => {
            let place = table_at(tables, *query);
            Ok(Work::Cell {
                source: place.source,
                at: place_of(alloc, known, place.extent, *lane, *slot)?,
            })
        }
    }
}

/// The code of the steps from one on, behind a block. `known` are the terms of the earlier steps.
fn behind(
    alloc: Global,
    levels: &[Coordinate],
    tables: &[Table],
    steps: &[PlanStep],
    known: &mut Vec<Term>,
    next: u32,
    inner: Block,
    mut before: Block,
) -> Result<Block, AllocError>
    requires { next + 2 * length steps.now + 2 < 2 ^ 32 }
    ensures { IfOk result (λ b. tree_of b ≡ tree_of before +++ recovery.recovery levels.now tables.now steps.now (map term_tree known.old.items) next (tree_of inner)) }
{
    match steps {
        [] => {
            before.append(inner)?;
            Ok(before)
        }
        [step, rest @ ..] => {
            let work = work_of(alloc, tables, step, known)?;
            known.push(step_term(alloc, levels, step, next)?)?;
            let after = next + names(step);
            match work {
                Work::Nothing => behind(alloc, levels, tables, rest, known, after, inner, before),
                Work::Value(value) => {
                    before.push(let_reg(next, value))?;
                    behind(alloc, levels, tables, rest, known, after, inner, before)
                }
                Work::Cell { source, at } => {
                    let cell = load(next + 1, Buf::Source(source), Term::Reg(next));
                    let read = Block::of(alloc, cell)?;
                    let body = behind(alloc, levels, tables, rest, known, after, inner, read)?;
                    before.push(when(at, Dim::Len(source), next, body))?;
                    Ok(before)
                }
            }
        }
    }
}

/// The code that gives each step of a plan its value, around a block. Registers from `next` on are its own, as many
/// as `names_in` says; the value of a step is `term_at`. It fails only for want of memory.
pub fn recover(
    alloc: Global,
    levels: &[Coordinate],
    tables: &[Table],
    steps: &[PlanStep],
    next: u32,
    inner: Block,
) -> Result<Block, AllocError>
    requires { next + 2 * length steps.now + 2 < 2 ^ 32 }
    ensures { IfOk result (λ b. tree_of b ≡ recovery.recovery levels.now tables.now steps.now [] next (tree_of inner)) }
{
    let mut known = Vec::new(alloc);
    let before = Block::new(alloc);
    behind(
        alloc, levels, tables, steps, &mut known, next, inner, before,
    )
}

/// How many registers the code of steps names.
pub fn names_in(steps: &[PlanStep]) -> u32
    requires { 2 * length steps.now < 2 ^ 32 }
    ensures count { result ≡ recovery.names_in steps.now }
    ensures few { result ≤ 2 * length steps.now }
{
    match steps {
        [] => 0,
        [step, rest @ ..] => names(step) + names_in(rest),
    }
}

/// The term of the value of the step with a number, inside the code of steps. It fails only for want of memory.
pub fn term_at(
    alloc: Global,
    levels: &[Coordinate],
    steps: &[PlanStep],
    next: u32,
    number: usize,
) -> Result<Term, AllocError>
    requires { next + 2 * length steps.now + 2 < 2 ^ 32 }
    ensures { IfOk result (λ t. term_tree t ≡ recovery.term_at levels.now steps.now next number) }
{
    match steps {
        [] => Ok(Term::Number(0)),
        [step, rest @ ..] => {
            if number == 0 {
                step_term(alloc, levels, step, next)
            } else {
                term_at(alloc, levels, rest, next + names(step), number - 1)
            }
        }
    }
}

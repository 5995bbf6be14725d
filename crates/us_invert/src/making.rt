//! A plan in the making: one step after the other, until no rule gives another one.
ghost use Rattle.std.specs.Prelude.{◌≡◌, ◌<◌, ◌≤◌, ◌^◌, false, length, map, IfOk, OnOk};
ghost use Rattle.us_format.specs.Declaration.{query_of};
ghost use Rattle.us_format.specs.Known.{step_for, one_pass, passes};
ghost use Rattle.us_known.specs.Table.{tree_at, trees, IsTable};
ghost use Rattle.us_invert.specs.Made.{number_at, step_of, made_steps, IsMaking, AddsStep};

use crate::giving::{has_step, source_of};
use crate::steps::{PlanStep, Source};
use std::alloc::AllocError;
use us_expr::Query;
use us_known::Node;

/// The steps so far, each with its node; and of each node the number of its step.
#[derive(Debug, Drop)]
pub struct Making {
    pub made: Vec<usize>,
    pub steps: Vec<PlanStep>,
    pub numbers: Vec<Option<u32>>,
}

/// The number of a node's step, or 0.
fn number_at(numbers: &[Option<u32>], n: usize) -> u32
    ensures { result ≡ number_at numbers.now n }
{
    if n < numbers.len() {
        numbers[n].unwrap_or(0)
    } else {
        0
    }
}

/// The step of a source.
fn step_of(numbers: &[Option<u32>], source: Source) -> PlanStep
    ensures { result ≡ step_of numbers.now source }
{
    match source {
        Source::Constant(value) => PlanStep::Const { value },
        Source::Level(level) => PlanStep::Level { level },
        Source::Total(a, b) => PlanStep::Add {
            a: number_at(numbers, a),
            b: number_at(numbers, b),
        },
        Source::Less(a, b) => PlanStep::Sub {
            a: number_at(numbers, a),
            b: number_at(numbers, b),
        },
        Source::Joined(q, r, k) => PlanStep::Join {
            quotient: number_at(numbers, q),
            remainder: number_at(numbers, r),
            k,
        },
        Source::Over(a, k) => PlanStep::Div {
            a: number_at(numbers, a),
            k,
        },
        Source::Rest(a, k) => PlanStep::Rem {
            a: number_at(numbers, a),
            k,
        },
        Source::Order(query, v) => PlanStep::Order {
            query,
            rank: number_at(numbers, v),
        },
        Source::Rows(query, l, t) => PlanStep::Rows {
            query,
            lane: number_at(numbers, l),
            slot: number_at(numbers, t),
        },
    }
}

/// Adds the step of a node.
pub fn add_step(making: &mut Making, n: usize, source: Source) -> Result<(), AllocError>
    requires node { n < length making.old.numbers.items }
    requires few { length making.old.made.items < 2 ^ 32 }
    ensures { OnOk result (AddsStep making.old making.new n source) }
{
    let number = making.made.len() as u32;
    let step = step_of(&making.numbers, source);
    making.made.push(n)?;
    making.steps.push(step)?;
    making.numbers[n] = Some(number);
    Ok(())
}

/// A step for the node `e`, unless it has one or no rule applies; whether there is a new step.
fn step_for(
    making: &mut Making,
    nodes: &[Node],
    queries: &[Query],
    e: usize,
) -> Result<bool, AllocError>
    requires table { IsTable nodes.now }
    requires making { IsMaking nodes.now making.old }
    requires node { e < length nodes.now }
    requires few { length queries.now ≤ 16 }
    requires small { length nodes.now < 2 ^ 32 }
    ensures making { OnOk result (IsMaking nodes.now making.new) }
    ensures steps { OnOk result (made_steps nodes.now making.new ≡ step_for (trees nodes.now) (map query_of queries.now) (made_steps nodes.now making.old) (tree_at (trees nodes.now) e)) }
    ensures idle { IfOk result (λ more. more ≡ false → made_steps nodes.now making.new ≡ made_steps nodes.now making.old) }
{
    if has_step(&making.numbers, e) {
        return Ok(false);
    }
    match source_of(nodes, &making.numbers, queries, e) {
        Some(source) => {
            add_step(making, e, source)?;
            Ok(true)
        }
        None => Ok(false),
    }
}

/// Once over all nodes; whether there is a new step.
fn pass(making: &mut Making, nodes: &[Node], queries: &[Query]) -> Result<bool, AllocError>
    requires table { IsTable nodes.now }
    requires making { IsMaking nodes.now making.old }
    requires few { length queries.now ≤ 16 }
    requires small { length nodes.now < 2 ^ 32 }
    ensures making { OnOk result (IsMaking nodes.now making.new) }
    ensures steps { OnOk result (made_steps nodes.now making.new ≡ one_pass (trees nodes.now) (map query_of queries.now) (trees nodes.now) (made_steps nodes.now making.old)) }
    ensures idle { IfOk result (λ more. more ≡ false → made_steps nodes.now making.new ≡ made_steps nodes.now making.old) }
{
    let mut changed = false;
    for e in 0..nodes.len() {
        if step_for(making, nodes, queries, e)? {
            changed = true;
        }
    }
    Ok(changed)
}

/// Passes until one gives no new step.
pub fn passes(making: &mut Making, nodes: &[Node], queries: &[Query]) -> Result<(), AllocError>
    requires table { IsTable nodes.now }
    requires making { IsMaking nodes.now making.old }
    requires few { length queries.now ≤ 16 }
    requires small { length nodes.now < 2 ^ 32 }
    ensures making { OnOk result (IsMaking nodes.now making.new) }
    ensures steps { OnOk result (made_steps nodes.now making.new ≡ passes (length nodes.now) (trees nodes.now) (map query_of queries.now) (made_steps nodes.now making.old)) }
{
    for n in 0..nodes.len() {
        if !pass(making, nodes, queries)? {
            return Ok(());
        }
    }
    Ok(())
}

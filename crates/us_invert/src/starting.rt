//! The start of a plan: constants and levels.
ghost use Rattle.std.specs.Prelude.{◌≡◌, ◌<◌, ◌≤◌, ◌^◌, [], false, length, map, slice_index_or, IfOk, OnOk};
ghost use Rattle.us_expr.specs.Tree.{tree};
ghost use Rattle.us_format.specs.Declaration.{query_of};
ghost use Rattle.us_format.specs.Known.{expressions, given_steps, start, with_step, at_start};
ghost use Rattle.us_known.specs.declared.table.Node.TheVariants.{Row};
ghost use Rattle.us_known.specs.Table.{tree_at, trees, IsTable};
ghost use Rattle.us_invert.specs.Made.{made_steps, IsMaking, IsEmpty};
ghost use Rattle.us_invert.specs.Start.{AreNodesOf, is_node, place_of, start_source, SameAbove};
ghost use Rattle.us_invert.specs.Sources.{has_step};

use crate::making::{Making, add_step, passes};
use crate::steps::Source;
use std::alloc::{AllocError, Global};
use us_expr::{Expr, Query};
use us_known::{Node, number_of};

/// The nodes of the levels.
fn level_nodes(
    alloc: Global,
    nodes: &[Node],
    levels: &[Expr],
) -> Result<Vec<Option<usize>>, AllocError>
    requires { IsTable nodes.now }
    ensures { IfOk result (λ v. AreNodesOf nodes.now (map tree levels.now) v.items) }
{
    let mut found = Vec::new(alloc);
    for level in levels {
        found.push(number_of(nodes, level))?;
    }
    Ok(found)
}

fn is_node(n: usize, found: Option<usize>) -> bool
    ensures { result ≡ is_node n found }
{
    match found {
        Some(m) => m == n,
        None => false,
    }
}

/// The number of the first level whose node is `n`.
fn place_of(level_nodes: &[Option<usize>], n: usize) -> Option<u32>
    requires { length level_nodes.now ≤ 6 }
    ensures { result ≡ place_of 0 level_nodes.now n }
{
    for k in 0..level_nodes.len() {
        if is_node(n, level_nodes[k]) {
            return Some(k as u32);
        }
    }
    None
}

/// What gives a node its value at the start.
fn start_source(nodes: &[Node], level_nodes: &[Option<usize>], n: usize) -> Option<Source>
    requires node { n < length nodes.now }
    requires few { length level_nodes.now ≤ 6 }
    ensures { result ≡ start_source level_nodes.now n (slice_index_or nodes.now n Row) }
{
    match nodes[n] {
        Node::Number(c) => Some(Source::Constant(c)),
        _ => match place_of(level_nodes, n) {
            Some(level) => Some(Source::Level(level)),
            None => None,
        },
    }
}

/// A plan without steps.
fn empty(alloc: Global, count: usize) -> Result<Making, AllocError>
    ensures { IfOk result (λ making. IsEmpty count making) }
{
    Ok(Making {
        made: Vec::new(alloc),
        steps: Vec::new(alloc),
        numbers: vec![in alloc; None; count]?,
    })
}

/// The step of a node at the start, if it has one.
fn start_one(
    making: &mut Making,
    nodes: &[Node],
    levels: &[Expr],
    level_nodes: &[Option<usize>],
    n: usize,
) -> Result<(), AllocError>
    requires table { IsTable nodes.now }
    requires making { IsMaking nodes.now making.old }
    requires node { n < length nodes.now }
    requires free { has_step making.old.numbers.items n ≡ false }
    requires small { length nodes.now < 2 ^ 32 }
    requires few { length level_nodes.now ≤ 6 }
    requires levels { AreNodesOf nodes.now (map tree levels.now) level_nodes.now }
    ensures making { OnOk result (IsMaking nodes.now making.new) }
    ensures steps { OnOk result (made_steps nodes.now making.new ≡ with_step (made_steps nodes.now making.old) (tree_at (trees nodes.now) n) (at_start (map tree levels.now) (tree_at (trees nodes.now) n))) }
    ensures others { OnOk result (SameAbove n making.old.numbers.items making.new.numbers.items) }
{
    match start_source(nodes, level_nodes, n) {
        Some(source) => add_step(making, n, source),
        None => Ok(()),
    }
}

/// The constants and levels, in the order of the nodes.
fn start(
    making: &mut Making,
    nodes: &[Node],
    levels: &[Expr],
    level_nodes: &[Option<usize>],
) -> Result<(), AllocError>
    requires table { IsTable nodes.now }
    requires empty { IsEmpty (length nodes.now) making.old }
    requires small { length nodes.now < 2 ^ 32 }
    requires few { length level_nodes.now ≤ 6 }
    requires levels { AreNodesOf nodes.now (map tree levels.now) level_nodes.now }
    ensures making { OnOk result (IsMaking nodes.now making.new) }
    ensures steps { OnOk result (made_steps nodes.now making.new ≡ start (map tree levels.now) (trees nodes.now) []) }
{
    for n in 0..nodes.len() {
        start_one(making, nodes, levels, level_nodes, n)?;
    }
    Ok(())
}

/// All steps by which the levels give values.
pub fn make(
    alloc: Global,
    nodes: &[Node],
    levels: &[Expr],
    queries: &[Query],
) -> Result<Making, AllocError>
    requires table { IsTable nodes.now }
    requires trees { trees nodes.now ≡ expressions (map tree levels.now) (map query_of queries.now) }
    requires small { length nodes.now < 2 ^ 32 }
    requires levels { length levels.now ≤ 6 }
    requires queries { length queries.now ≤ 16 }
    ensures making { IfOk result (λ making. IsMaking nodes.now making) }
    ensures steps { IfOk result (λ making. made_steps nodes.now making ≡ given_steps (map tree levels.now) (map query_of queries.now) (length levels.now)) }
{
    let level_nodes = level_nodes(alloc, nodes, levels)?;
    let mut making = empty(alloc, nodes.len())?;
    start(&mut making, nodes, levels, &level_nodes)?;
    passes(&mut making, nodes, queries)?;
    Ok(making)
}

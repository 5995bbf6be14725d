//! What gives a node its value, by the first rule that applies.
ghost use Rattle.std.specs.Prelude.{◌≡◌, ◌<◌, ◌≤◌, length, map, slice_index_or, slice_get};
ghost use Rattle.us_expr.specs.Tree.{tree};
ghost use Rattle.us_format.specs.Lists.{first_of};
ghost use Rattle.us_format.specs.Declaration.{query_of, axis_of};
ghost use Rattle.us_format.specs.Known.{order_for, rows_for, from_reorder, from_schedule, rule};
ghost use Rattle.us_known.specs.declared.table.Node.TheVariants.{Row, Variable};
ghost use Rattle.us_known.specs.Table.{tree_at, trees, IsTable};
ghost use Rattle.us_invert.specs.Sources.{has_step, sum_source, difference_source, IsQuotientSource, is_index, order_source, IsRowsSource, operands_source, from_way, by_ways, IsGiven};

use crate::steps::{Source, Way};
use us_expr::{Expr, Query};
use us_known::{Node, find};

/// Whether a node has a step.
pub fn has_step(numbers: &[Option<u32>], n: usize) -> bool
    ensures { result ≡ has_step numbers.now n }
{
    n < numbers.len() && numbers[n].is_some()
}

/// The term `e` of the sum `s`, if `s` and the other term have steps.
fn from_sum(nodes: &[Node], numbers: &[Option<u32>], e: usize, s: usize) -> Option<Source>
    requires { s < length nodes.now }
    ensures { result ≡ sum_source numbers.now e s (slice_index_or nodes.now s Row) }
{
    match nodes[s] {
        Node::Sum(a, b) => {
            if !has_step(numbers, s) {
                return None;
            }
            if a == e && has_step(numbers, b) {
                return Some(Source::Less(s, b));
            }
            if b == e && has_step(numbers, a) {
                return Some(Source::Less(s, a));
            }
            None
        }
        _ => None,
    }
}

/// The operand `e` of the difference `s`, if `s` and the other operand have steps.
fn from_difference(nodes: &[Node], numbers: &[Option<u32>], e: usize, s: usize) -> Option<Source>
    requires { s < length nodes.now }
    ensures { result ≡ difference_source numbers.now e s (slice_index_or nodes.now s Row) }
{
    match nodes[s] {
        Node::Difference(a, b) => {
            if !has_step(numbers, s) {
                return None;
            }
            if a == e && has_step(numbers, b) {
                return Some(Source::Total(s, b));
            }
            if b == e && has_step(numbers, a) {
                return Some(Source::Less(a, s));
            }
            None
        }
        _ => None,
    }
}

/// The operand `e` of the quotient `s`, if `s` and the remainder by the same number have steps.
fn from_quotient(nodes: &[Node], numbers: &[Option<u32>], e: usize, s: usize) -> Option<Source>
    requires { s < length nodes.now }
    ensures { IsQuotientSource nodes.now numbers.now e s (slice_index_or nodes.now s Row) result }
{
    match nodes[s] {
        Node::Quotient(a, k) => {
            let m = find(nodes, Node::Remainder(a, k))?;
            if a == e && has_step(numbers, s) && has_step(numbers, m) {
                Some(Source::Joined(s, m, k))
            } else {
                None
            }
        }
        _ => None,
    }
}

/// Whether a node is the index that an argument names.
fn is_index(node: Node, arg: &Expr) -> bool
    ensures { result ≡ is_index (axis_of (tree arg.now)) node }
{
    match arg {
        Expr::J => matches!(node, Node::Col),
        _ => matches!(node, Node::Row),
    }
}

/// The index of a reorder whose variable `v` has the node `s`.
fn from_one_reorder(
    numbers: &[Option<u32>],
    index: Node,
    s: usize,
    v: u32,
    number: u32,
    query: &Query,
) -> Option<Source>
    ensures { result ≡ order_source numbers.now index s v number (query_of query.now) }
{
    match query {
        Query::Reorder { var, arg } => {
            if *var == v && is_index(index, arg) && has_step(numbers, s) {
                Some(Source::Order(number, s))
            } else {
                None
            }
        }
        _ => None,
    }
}

/// The index of a schedule whose lane `v` has the node `s`.
fn from_one_schedule(
    nodes: &[Node],
    numbers: &[Option<u32>],
    index: Node,
    s: usize,
    v: u32,
    number: u32,
    query: &Query,
) -> Option<Source>
    ensures { IsRowsSource nodes.now numbers.now index s v number (query_of query.now) result }
{
    match query {
        Query::Schedule {
            lane,
            slot,
            arg,
            ..
        } => {
            let m = find(nodes, Node::Variable(*slot))?;
            if *lane == v && is_index(index, arg) && has_step(numbers, s) && has_step(numbers, m) {
                Some(Source::Rows(number, s, m))
            } else {
                None
            }
        }
        _ => None,
    }
}

/// A node from its operands, if they have steps.
fn from_operands(nodes: &[Node], numbers: &[Option<u32>], e: usize) -> Option<Source>
    requires { e < length nodes.now }
    ensures { result ≡ operands_source numbers.now (slice_index_or nodes.now e Row) }
{
    match nodes[e] {
        Node::Sum(a, b) => {
            if has_step(numbers, a) && has_step(numbers, b) {
                Some(Source::Total(a, b))
            } else {
                None
            }
        }
        Node::Difference(a, b) => {
            if has_step(numbers, a) && has_step(numbers, b) {
                Some(Source::Less(a, b))
            } else {
                None
            }
        }
        Node::Quotient(a, k) => {
            if has_step(numbers, a) {
                Some(Source::Over(a, k))
            } else {
                None
            }
        }
        Node::Remainder(a, k) => {
            if has_step(numbers, a) {
                Some(Source::Rest(a, k))
            } else {
                None
            }
        }
        _ => None,
    }
}

/// The index `e` by the first reorder whose variable `v` has the node `s`.
fn from_reorders(
    nodes: &[Node],
    numbers: &[Option<u32>],
    queries: &[Query],
    e: usize,
    s: usize,
    v: u32,
) -> Option<Source>
    requires table { IsTable nodes.now }
    requires index { e < length nodes.now }
    requires variable { slice_get nodes.now s ≡ Some (Variable v) }
    requires few { length queries.now ≤ 16 }
    ensures { IsGiven nodes.now numbers.now (λ known. order_for known (tree_at (trees nodes.now) e) v 0 (map query_of queries.now)) result }
{
    for number in 0..queries.len() {
        let source = from_one_reorder(numbers, nodes[e], s, v, number as u32, &queries[number]);
        if source.is_some() {
            return source;
        }
    }
    None
}

/// The index `e` by the first schedule whose lane `v` has the node `s`.
fn from_schedules(
    nodes: &[Node],
    numbers: &[Option<u32>],
    queries: &[Query],
    e: usize,
    s: usize,
    v: u32,
) -> Option<Source>
    requires table { IsTable nodes.now }
    requires index { e < length nodes.now }
    requires variable { slice_get nodes.now s ≡ Some (Variable v) }
    requires few { length queries.now ≤ 16 }
    ensures { IsGiven nodes.now numbers.now (λ known. rows_for known (tree_at (trees nodes.now) e) v 0 (map query_of queries.now)) result }
{
    for number in 0..queries.len() {
        let query = &queries[number];
        let source = from_one_schedule(nodes, numbers, nodes[e], s, v, number as u32, query);
        if source.is_some() {
            return source;
        }
    }
    None
}

/// The index `e` by the first reorder whose variable is the node `s`.
fn from_reorder(
    nodes: &[Node],
    numbers: &[Option<u32>],
    queries: &[Query],
    e: usize,
    s: usize,
) -> Option<Source>
    requires table { IsTable nodes.now }
    requires index { e < length nodes.now }
    requires node { s < length nodes.now }
    requires few { length queries.now ≤ 16 }
    ensures { IsGiven nodes.now numbers.now (λ known. from_reorder (map query_of queries.now) known (tree_at (trees nodes.now) e) (tree_at (trees nodes.now) s)) result }
{
    match nodes[s] {
        Node::Variable(v) => from_reorders(nodes, numbers, queries, e, s, v),
        _ => None,
    }
}

/// The index `e` by the first schedule whose lane is the node `s`.
fn from_schedule(
    nodes: &[Node],
    numbers: &[Option<u32>],
    queries: &[Query],
    e: usize,
    s: usize,
) -> Option<Source>
    requires table { IsTable nodes.now }
    requires index { e < length nodes.now }
    requires node { s < length nodes.now }
    requires few { length queries.now ≤ 16 }
    ensures { IsGiven nodes.now numbers.now (λ known. from_schedule (map query_of queries.now) known (tree_at (trees nodes.now) e) (tree_at (trees nodes.now) s)) result }
{
    match nodes[s] {
        Node::Variable(v) => from_schedules(nodes, numbers, queries, e, s, v),
        _ => None,
    }
}

/// What gives `e` from the node `s` in one way.
fn from_node(
    way: Way,
    nodes: &[Node],
    numbers: &[Option<u32>],
    queries: &[Query],
    e: usize,
    s: usize,
) -> Option<Source>
    requires table { IsTable nodes.now }
    requires wanted { e < length nodes.now }
    requires node { s < length nodes.now }
    requires few { length queries.now ≤ 16 }
    ensures { IsGiven nodes.now numbers.now (λ known. from_way way (map query_of queries.now) known (tree_at (trees nodes.now) e) (tree_at (trees nodes.now) s)) result }
{
    match way {
        Way::Sum => from_sum(nodes, numbers, e, s),
        Way::Difference => from_difference(nodes, numbers, e, s),
        Way::Quotient => from_quotient(nodes, numbers, e, s),
        Way::Reorder => from_reorder(nodes, numbers, queries, e, s),
        Way::Schedule => from_schedule(nodes, numbers, queries, e, s),
    }
}

/// What gives `e` in one way from the first node that gives it.
fn from_first(
    way: Way,
    nodes: &[Node],
    numbers: &[Option<u32>],
    queries: &[Query],
    e: usize,
) -> Option<Source>
    requires table { IsTable nodes.now }
    requires wanted { e < length nodes.now }
    requires few { length queries.now ≤ 16 }
    ensures { IsGiven nodes.now numbers.now (λ known. first_of (from_way way (map query_of queries.now) known (tree_at (trees nodes.now) e)) (trees nodes.now)) result }
{
    for s in 0..nodes.len() {
        let source = from_node(way, nodes, numbers, queries, e, s);
        if source.is_some() {
            return source;
        }
    }
    None
}

/// What gives `e` by the first of these ways that gives it; else from its operands.
fn from_ways(
    ways: &[Way],
    nodes: &[Node],
    numbers: &[Option<u32>],
    queries: &[Query],
    e: usize,
) -> Option<Source>
    requires table { IsTable nodes.now }
    requires wanted { e < length nodes.now }
    requires few { length queries.now ≤ 16 }
    ensures { IsGiven nodes.now numbers.now (λ known. by_ways ways.now (trees nodes.now) (map query_of queries.now) known (tree_at (trees nodes.now) e)) result }
{
    for way in ways {
        let source = from_first(*way, nodes, numbers, queries, e);
        if source.is_some() {
            return source;
        }
    }
    from_operands(nodes, numbers, e)
}

/// What gives `e` by the first rule that applies.
pub fn source_of(
    nodes: &[Node],
    numbers: &[Option<u32>],
    queries: &[Query],
    e: usize,
) -> Option<Source>
    requires table { IsTable nodes.now }
    requires wanted { e < length nodes.now }
    requires few { length queries.now ≤ 16 }
    ensures { IsGiven nodes.now numbers.now (λ known. rule (trees nodes.now) (map query_of queries.now) known (tree_at (trees nodes.now) e)) result }
{
    let ways = [
        Way::Sum,
        Way::Difference,
        Way::Quotient,
        Way::Reorder,
        Way::Schedule,
    ];
    from_ways(&ways, nodes, numbers, queries, e)
}

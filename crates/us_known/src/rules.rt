//! Which nodes get known from which, as rules with two premises.
ghost use Rattle.std.specs.Prelude.{◌≡◌, ◌<◌, ◌≤◌, ◌++◌, [], length, All, IfOk, OnOk, slice_index_or, true, false};
ghost use Rattle.std.specs.Option.{option_to_list};
ghost use Rattle.us_expr.specs.Tree.{tree};
ghost use Rattle.us_format.specs.Declaration.{query_of, axis_of};
ghost use Rattle.us_known.specs.declared.table.Node.TheVariants.{Row};
ghost use Rattle.us_known.specs.Rules.{AreRulesOf, NodeRules, index_node, IsRuleOf, IsQueryRule, QueryRules, AllRules, IsRuleBelow, flag, missing, Follows, Leads, Applies, IsIdle};

use crate::table::{Node, find};
use std::alloc::{AllocError, Global};
use us_expr::{Expr, Query};

/// If the nodes `first` and `second` are known, so is the node `gives`.
#[derive(Clone, Copy, Debug, PartialEq, Eq)]
pub struct Rule {
    pub first: usize,
    pub second: usize,
    pub gives: usize,
}

fn make_rule(first: usize, second: usize, gives: usize) -> Rule
    ensures { result ≡ record { first = first; second = second; gives = gives } }
{
    Rule {
        first,
        second,
        gives,
    }
}

/// The rules of the node `n`.
fn node_rules(nodes: &[Node], n: usize) -> [Rule; 3]
    requires { n < length nodes.now }
    ensures { AreRulesOf nodes.now n (slice_index_or nodes.now n Row) result }
{
    let none = make_rule(n, n, n);
    match nodes[n] {
        Node::Sum(a, b) => [make_rule(n, b, a), make_rule(n, a, b), make_rule(a, b, n)],
        Node::Difference(a, b) => [make_rule(n, b, a), make_rule(n, a, b), make_rule(a, b, n)],
        Node::Quotient(a, k) => match find(nodes, Node::Remainder(a, k)) {
            Some(m) => [make_rule(a, a, n), make_rule(n, m, a), none],
            None => [make_rule(a, a, n), none, none],
        },
        Node::Remainder(a, _) => [make_rule(a, a, n), none, none],
        Node::Row | Node::Col | Node::Number(_) | Node::Variable(_) => [none, none, none],
    }
}

/// The node of the index that an argument names.
fn argument_node(arg: &Expr) -> Node
    ensures { result ≡ index_node (axis_of (tree arg.now)) }
{
    match arg {
        Expr::J => Node::Col,
        _ => Node::Row,
    }
}

/// The rule by which two variables give an index, if all three are in the table.
fn rule_of(nodes: &[Node], first: u32, second: u32, index: Node) -> Option<Rule>
    ensures { IsRuleOf nodes.now first second index result }
{
    let first = find(nodes, Node::Variable(first))?;
    let second = find(nodes, Node::Variable(second))?;
    let gives = find(nodes, index)?;
    Some(make_rule(first, second, gives))
}

/// The rule of a query, if it has one.
fn query_rule(nodes: &[Node], query: &Query) -> Option<Rule>
    ensures { IsQueryRule nodes.now (query_of query.now) result }
{
    match query {
        Query::Reorder { var, arg } => rule_of(nodes, *var, *var, argument_node(arg)),
        Query::Schedule {
            lane,
            slot,
            arg,
            ..
        } => rule_of(nodes, *lane, *slot, argument_node(arg)),
        Query::Sum { .. } | Query::Enumerate { .. } => None,
    }
}

/// Adds the rule, if there is one.
fn push_rule(rules: &mut Vec<Rule>, rule: Option<Rule>) -> Result<(), AllocError>
    ensures { OnOk result (rules.new.items ≡ rules.old.items ++ option_to_list rule) }
{
    if let Some(rule) = rule {
        rules.push(rule)?;
    }
    Ok(())
}

/// The rules of all nodes.
fn all_node_rules(alloc: Global, nodes: &[Node]) -> Result<Vec<Rule>, AllocError>
    ensures { IfOk result (λ rules. NodeRules nodes.now (length nodes.now) rules.items) }
{
    let mut rules = Vec::new(alloc);
    for n in 0..nodes.len() {
        rules.extend_from_slice(&node_rules(nodes, n))?;
    }
    Ok(rules)
}

/// Adds the rules of all queries.
fn add_query_rules(
    rules: &mut Vec<Rule>,
    nodes: &[Node],
    queries: &[Query],
) -> Result<(), AllocError>
    ensures { OnOk result (QueryRules nodes.now queries.now rules.old.items (length queries.now) rules.new.items) }
{
    for query in queries {
        push_rule(rules, query_rule(nodes, query))?;
    }
    Ok(())
}

/// The rules of all nodes and queries.
pub fn all_rules(alloc: Global, nodes: &[Node], queries: &[Query]) -> Result<Vec<Rule>, AllocError>
    ensures { IfOk result (λ rules. AllRules nodes.now queries.now rules.items) }
{
    let mut rules = all_node_rules(alloc, nodes)?;
    add_query_rules(&mut rules, nodes, queries)?;
    Ok(rules)
}

/// Flags what the rule gives, if its premises are flagged and it isn't; whether it did.
fn apply(rule: Rule, known: &mut [bool]) -> bool
    requires { IsRuleBelow (length known.old) rule }
    ensures applied { result ≡ true → Applies rule known.old known.new }
    ensures idle { result ≡ false → IsIdle rule known.old known.new }
{
    if known[rule.first] && known[rule.second] && !known[rule.gives] {
        known[rule.gives] = true;
        true
    } else {
        false
    }
}

/// Applies each rule once; whether one of them gave anything new.
fn pass(rules: &[Rule], known: &mut [bool]) -> bool
    requires { All (IsRuleBelow (length known.old)) rules.now }
    ensures leads { Leads rules.now known.old known.new }
    ensures closed { result ≡ false → All (Follows (flag known.new)) rules.now }
    ensures fewer { result ≡ true → missing known.new < missing known.old }
{
    let mut changed = false;
    for rule in rules {
        if apply(*rule, known) {
            changed = true;
        }
    }
    changed
}

/// Applies the rules until none gives anything new.
pub fn saturate(rules: &[Rule], known: &mut [bool])
    requires { All (IsRuleBelow (length known.old)) rules.now }
    ensures leads { Leads rules.now known.old known.new }
    ensures closed { All (Follows (flag known.new)) rules.now }
{
    while pass(rules, known) {}
}

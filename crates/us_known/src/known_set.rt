//! The set of expressions that some levels make known.
ghost use Rattle.std.specs.Prelude.{◌≡◌, ◌≤◌, [], ◌∷◌, ◌++◌, length, map, take, IfOk, OnOk};
ghost use Rattle.us_expr.specs.Tree.{tree, Tree};
ghost use Rattle.us_format.specs.Lists.{join};
ghost use Rattle.us_format.specs.Declaration.{query_of, argument};
ghost use Rattle.us_format.specs.Known.{has, add_all, sub_expressions, expressions, is_known};
ghost use Rattle.us_known.specs.Table.{trees, IsTable};
ghost use Rattle.us_known.specs.Flags.{is_number, AddsGiven, AreKnownFlags};

use crate::rules::{all_rules, saturate};
use crate::table::{Node, add, insert, number_of};
use std::alloc::{AllocError, Global};
use std::marker::Model;
use us_expr::{Expr, Query};

/// The expressions that some levels of a part make known. Contracts see it as a list of trees.
#[derive(Debug, Drop)]
pub struct KnownSet {
    nodes: Vec<Node>,
    known: Vec<bool>,
}

impl Model for KnownSet {
    ghost use Rattle.std.specs.Prelude.{◌≡◌, List, length};
    ghost use Rattle.us_expr.specs.Tree.{Tree};
    ghost use Rattle.us_known.specs.Table.{trees, IsTable};
    ghost use Rattle.us_known.specs.Flags.{flagged};
    ghost use Rattle.us_known.specs.Code.{trees_code};

    ghost Value = { List Tree };

    ghost coded = { trees_code };

    ghost view = { λ s. flagged (trees s.nodes.items) s.known.items };

    ghost invariant = { λ s. IsTable s.nodes.items × (length s.known.items ≡ length s.nodes.items) };
}

impl KnownSet {
    /// Whether an expression is known. It takes no memory.
    pub fn has(&self, e: &Expr) -> bool
        ensures { result ≡ has self.now (tree e.now) }
    {
        match number_of(&self.nodes, e) {
            Some(n) => self.known[n],
            None => false,
        }
    }
}

/// Adds the sub-expressions of the levels.
fn insert_levels(nodes: &mut Vec<Node>, levels: &[Expr]) -> Result<(), AllocError>
    requires { IsTable nodes.old.items }
    ensures table { OnOk result (IsTable nodes.new.items) }
    ensures trees { OnOk result (trees nodes.new.items ≡ add_all (trees nodes.old.items) (join (map sub_expressions (map tree levels.now)))) }
{
    for level in levels {
        insert(nodes, level)?;
    }
    Ok(())
}

/// Adds the sub-expressions of a query's argument.
fn insert_argument(nodes: &mut Vec<Node>, query: &Query) -> Result<(), AllocError>
    requires { IsTable nodes.old.items }
    ensures table { OnOk result (IsTable nodes.new.items) }
    ensures trees { OnOk result (trees nodes.new.items ≡ add_all (trees nodes.old.items) (sub_expressions (argument (query_of query.now)))) }
{
    match query {
        Query::Sum { arg, .. } => insert(nodes, arg)?,
        Query::Enumerate { arg, .. } => insert(nodes, arg)?,
        Query::Reorder { arg, .. } => insert(nodes, arg)?,
        Query::Schedule { arg, .. } => insert(nodes, arg)?,
    };
    Ok(())
}

/// Adds the sub-expressions of the queries' arguments.
fn insert_arguments(nodes: &mut Vec<Node>, queries: &[Query]) -> Result<(), AllocError>
    requires { IsTable nodes.old.items }
    ensures table { OnOk result (IsTable nodes.new.items) }
    ensures trees { OnOk result (trees nodes.new.items ≡ add_all (trees nodes.old.items) (join (map (λ q. sub_expressions (argument q)) (map query_of queries.now)))) }
{
    for query in queries {
        insert_argument(nodes, query)?;
    }
    Ok(())
}

/// The table of all expressions of a part.
pub fn table_of(alloc: Global, levels: &[Expr], queries: &[Query]) -> Result<Vec<Node>, AllocError>
    ensures table { IfOk result (λ nodes. IsTable nodes.items) }
    ensures trees { IfOk result (λ nodes. trees nodes.items ≡ expressions (map tree levels.now) (map query_of queries.now)) }
{
    let mut nodes = Vec::new(alloc);
    insert_levels(&mut nodes, levels)?;
    insert_arguments(&mut nodes, queries)?;
    add(&mut nodes, Node::Row)?;
    add(&mut nodes, Node::Col)?;
    Ok(nodes)
}

/// Which nodes are constants.
fn constants(alloc: Global, nodes: &[Node]) -> Result<Vec<bool>, AllocError>
    ensures { IfOk result (λ flags. flags.items ≡ map is_number nodes.now) }
{
    let mut flags = Vec::new(alloc);
    for node in nodes {
        flags.push(matches!(node, Node::Number(_)))?;
    }
    Ok(flags)
}

/// Flags one expression.
fn add_one(nodes: &[Node], e: &Expr, flags: &mut [bool])
    requires table { IsTable nodes.now }
    requires flags { length flags.old ≡ length nodes.now }
    ensures { AddsGiven (trees nodes.now) (tree e.now ∷ []) flags.old flags.new }
{
    if let Some(n) = number_of(nodes, e) {
        flags[n] = true;
    }
}

/// Flags the given expressions.
fn add_given(nodes: &[Node], given: &[Expr], flags: &mut [bool])
    requires table { IsTable nodes.now }
    requires flags { length flags.old ≡ length nodes.now }
    ensures { AddsGiven (trees nodes.now) (map tree given.now) flags.old flags.new }
{
    for e in given {
        add_one(nodes, e, flags);
    }
}

/// Flags what the given expressions make known.
fn known_flags(
    alloc: Global,
    nodes: &[Node],
    given: &[Expr],
    queries: &[Query],
) -> Result<Vec<bool>, AllocError>
    requires { IsTable nodes.now }
    ensures length { IfOk result (λ flags. length flags.items ≡ length nodes.now) }
    ensures flags { IfOk result (λ flags. AreKnownFlags nodes.now (trees nodes.now) (map tree given.now) queries.now flags.items) }
{
    let mut flags = constants(alloc, nodes)?;
    add_given(nodes, given, &mut flags);
    let rules = all_rules(alloc, nodes, queries)?;
    saturate(&rules, &mut flags);
    Ok(flags)
}

/// What the first `count` levels of a part with these levels and queries make known.
pub fn known(
    alloc: Global,
    levels: &[Expr],
    count: usize,
    queries: &[Query],
) -> Result<KnownSet, AllocError>
    requires { count ≤ length levels.now }
    ensures { IfOk result (λ set. (e : Tree) → has set e ≡ is_known (map tree levels.now) (map query_of queries.now) count e) }
{
    let nodes = table_of(alloc, levels, queries)?;
    let known = known_flags(alloc, &nodes, &levels[..count], queries)?;
    Ok(KnownSet { nodes, known })
}

//! The table of sub-expressions, each with its operands by their numbers.
ghost use Rattle.std.specs.Prelude.{ℕ, ◌≡◌, ◌≢◌, ◌<◌, [], ◌∷◌, length, false, IfOk, OnOk, IfSome, IfNone, slice_get};
ghost use Rattle.us_expr.specs.Tree.{tree};
ghost use Rattle.us_format.specs.Known.{has, add_all, sub_expressions};
ghost use Rattle.us_known.specs.Table.{tree_of, trees, IsBelow, IsTable, IsNumberOf, IsNoNode};

use std::alloc::AllocError;
use us_expr::Expr;

/// A sub-expression. Its operands are numbers of earlier nodes.
#[derive(Clone, Copy, Debug, PartialEq, Eq)]
pub enum Node {
    Row,
    Col,
    Number(u32),
    Variable(u32),
    Sum(usize, usize),
    Difference(usize, usize),
    Quotient(usize, u32),
    Remainder(usize, u32),
}

/// The number of the first place at which a node stands, if it is in the table.
pub fn find(nodes: &[Node], wanted: Node) -> Option<usize>
    ensures found { IfSome result (λ n. slice_get nodes.now n ≡ Some wanted) }
    ensures first { IfSome result (λ n. (k : ℕ) → k < n → slice_get nodes.now k ≢ Some wanted) }
    ensures absent { IfNone result (IsNoNode nodes.now wanted) }
{
    for (n, node) in nodes.iter().enumerate() {
        if *node == wanted {
            return Some(n);
        }
    }
    None
}

/// The number of a node, if it is in the table; by its expression.
fn number_of_node(nodes: &[Node], node: Node) -> Option<usize>
    requires table { IsTable nodes.now }
    requires below { IsBelow (length nodes.now) node }
    ensures found { IfSome result (λ n. IsNumberOf nodes.now n (tree_of (trees nodes.now) node)) }
    ensures absent { IfNone result (has (trees nodes.now) (tree_of (trees nodes.now) node) ≡ false) }
{
    find(nodes, node)
}

/// The number of an expression, if it is in the table.
pub fn number_of(nodes: &[Node], e: &Expr) -> Option<usize>
    requires table { IsTable nodes.now }
    ensures found { IfSome result (λ n. IsNumberOf nodes.now n (tree e.now)) }
    ensures absent { IfNone result (has (trees nodes.now) (tree e.now) ≡ false) }
{
    match e {
        Expr::I => number_of_node(nodes, Node::Row),
        Expr::J => number_of_node(nodes, Node::Col),
        Expr::Const(c) => number_of_node(nodes, Node::Number(*c)),
        Expr::Var(v) => number_of_node(nodes, Node::Variable(*v)),
        Expr::Add(a, b) => {
            let left = number_of(nodes, a.get())?;
            let right = number_of(nodes, b.get())?;
            number_of_node(nodes, Node::Sum(left, right))
        }
        Expr::Sub(a, b) => {
            let left = number_of(nodes, a.get())?;
            let right = number_of(nodes, b.get())?;
            number_of_node(nodes, Node::Difference(left, right))
        }
        Expr::Div(a, k) => {
            let operand = number_of(nodes, a.get())?;
            number_of_node(nodes, Node::Quotient(operand, *k))
        }
        Expr::Rem(a, k) => {
            let operand = number_of(nodes, a.get())?;
            number_of_node(nodes, Node::Remainder(operand, *k))
        }
    }
}

/// The number of a node, which is added at the end if it isn't in the table yet.
pub fn add(nodes: &mut Vec<Node>, node: Node) -> Result<usize, AllocError>
    requires table { IsTable nodes.old.items }
    requires below { IsBelow (length nodes.old.items) node }
    ensures table { OnOk result (IsTable nodes.new.items) }
    ensures trees { OnOk result (trees nodes.new.items ≡ add_all (trees nodes.old.items) (tree_of (trees nodes.old.items) node ∷ [])) }
    ensures number { IfOk result (λ n. IsNumberOf nodes.new.items n (tree_of (trees nodes.old.items) node)) }
{
    if let Some(n) = find(nodes, node) {
        return Ok(n);
    }
    let n = nodes.len();
    nodes.push(node)?;
    Ok(n)
}

/// The number of an expression, whose sub-expressions are added in order, operands before the whole.
pub fn insert(nodes: &mut Vec<Node>, e: &Expr) -> Result<usize, AllocError>
    requires table { IsTable nodes.old.items }
    ensures table { OnOk result (IsTable nodes.new.items) }
    ensures trees { OnOk result (trees nodes.new.items ≡ add_all (trees nodes.old.items) (sub_expressions (tree e.now))) }
    ensures number { IfOk result (λ n. IsNumberOf nodes.new.items n (tree e.now)) }
{
    match e {
        Expr::I => add(nodes, Node::Row),
        Expr::J => add(nodes, Node::Col),
        Expr::Const(c) => add(nodes, Node::Number(*c)),
        Expr::Var(v) => add(nodes, Node::Variable(*v)),
        Expr::Add(a, b) => {
            let left = insert(nodes, a.get())?;
            let right = insert(nodes, b.get())?;
            add(nodes, Node::Sum(left, right))
        }
        Expr::Sub(a, b) => {
            let left = insert(nodes, a.get())?;
            let right = insert(nodes, b.get())?;
            add(nodes, Node::Difference(left, right))
        }
        Expr::Div(a, k) => {
            let operand = insert(nodes, a.get())?;
            add(nodes, Node::Quotient(operand, *k))
        }
        Expr::Rem(a, k) => {
            let operand = insert(nodes, a.get())?;
            add(nodes, Node::Remainder(operand, *k))
        }
    }
}

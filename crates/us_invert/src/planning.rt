//! The plan of a recovery.
ghost use Rattle.std.specs.Prelude.{◌≡◌, ◌<◌, ◌≤◌, ◌+◌, ◌*◌, ℕ, Err, [], true, false, length, map, IfOk, OnOk, slice_index_or};
ghost use Rattle.us_expr.specs.Tree.{tree, RowIndex, ColIndex};
ghost use Rattle.us_format.specs.Declaration.{query_of};
ghost use Rattle.us_format.specs.Known.{known_of, is_known};
ghost use Rattle.us_format.specs.Recover.{plan_of, until_both};
ghost use Rattle.us_known.specs.Table.{tree_at, trees, tree_of, IsBelow, IsTable};
ghost use Rattle.us_invert.specs.Plan.{AreSmall};
ghost use Rattle.us_invert.specs.Made.{trees_at, made_steps, IsMaking, IsStepNumber};
ghost use Rattle.us_invert.specs.declared.planning.PlanFault.TheVariants.{Memory, NotKnown};
ghost use Rattle.us_expr.specs.declared.queries.Axis.TheVariants.{Rows, Cols};

use crate::making::Making;
use crate::recovery::RecoveryPlan;
use crate::starting::make;
use sqlite_items::Boxed;
use std::alloc::{AllocError, Global};
use us_expr::{Axis, Expr, Query};
use us_known::{Node, find, table_of};

/// Why there is no plan.
#[derive(Clone, Copy, Debug, PartialEq, Eq)]
pub enum PlanFault {
    /// The levels don't make the index of this axis known.
    NotKnown { axis: Axis },
    /// Memory ran out.
    Memory,
}

impl From<AllocError> for PlanFault {
    ghost from_gives = { λ _ e. e ≡ Memory };

    fn from(_e: AllocError) -> PlanFault {
        PlanFault::Memory
    }
}

/// The expression of a node.
fn expression_at(alloc: Global, nodes: &[Node], n: usize) -> Result<Expr, AllocError>
    requires table { IsTable nodes.now }
    requires node { n < length nodes.now }
    ensures { IfOk result (λ e. tree e ≡ tree_at (trees nodes.now) n) }
{
    match nodes[n] {
        Node::Row => Ok(Expr::I),
        Node::Col => Ok(Expr::J),
        Node::Number(c) => Ok(Expr::Const(c)),
        Node::Variable(v) => Ok(Expr::Var(v)),
        Node::Sum(a, b) => {
            let left = Boxed::new(alloc, expression_at(alloc, nodes, a)?)?;
            let right = Boxed::new(alloc, expression_at(alloc, nodes, b)?)?;
            Ok(Expr::Add(left, right))
        }
        Node::Difference(a, b) => {
            let left = Boxed::new(alloc, expression_at(alloc, nodes, a)?)?;
            let right = Boxed::new(alloc, expression_at(alloc, nodes, b)?)?;
            Ok(Expr::Sub(left, right))
        }
        Node::Quotient(a, k) => {
            let operand = Boxed::new(alloc, expression_at(alloc, nodes, a)?)?;
            Ok(Expr::Div(operand, k))
        }
        Node::Remainder(a, k) => {
            let operand = Boxed::new(alloc, expression_at(alloc, nodes, a)?)?;
            Ok(Expr::Rem(operand, k))
        }
    }
}

/// The expressions of some nodes.
fn expressions_at(alloc: Global, nodes: &[Node], made: &[usize]) -> Result<Vec<Expr>, AllocError>
    requires table { IsTable nodes.now }
    requires nodes { (k : ℕ) → k < length made.now → slice_index_or made.now k 0 < length nodes.now }
    ensures { IfOk result (λ exprs. map tree exprs.items ≡ trees_at nodes.now made.now) }
{
    let mut exprs = Vec::new(alloc);
    for n in made {
        exprs.push(expression_at(alloc, nodes, *n)?)?;
    }
    Ok(exprs)
}

/// The number of the step that gives a value to a node without operands.
fn step_number(making: &Making, nodes: &[Node], leaf: Node) -> Option<u32>
    requires table { IsTable nodes.now }
    requires making { IsMaking nodes.now making.now }
    requires leaf { IsBelow 0 leaf }
    ensures { IsStepNumber (trees_at nodes.now making.now.made.items) (tree_of (trees nodes.now) leaf) result }
{
    let n = find(nodes, leaf)?;
    making.numbers[n]
}

/// The plan that ends with the later one of these two steps.
fn cut(
    alloc: Global,
    nodes: &[Node],
    making: Making,
    rows_at: usize,
    cols_at: usize,
) -> Result<RecoveryPlan, AllocError>
    requires table { IsTable nodes.now }
    requires making { IsMaking nodes.now making }
    requires few { length nodes.now ≤ 706 }
    requires row_below { rows_at < length making.made.items }
    requires row { tree_at (trees_at nodes.now making.made.items) rows_at ≡ RowIndex }
    requires col_below { cols_at < length making.made.items }
    requires col { tree_at (trees_at nodes.now making.made.items) cols_at ≡ ColIndex }
    ensures is { IfOk result (λ p. p ≡ until_both [] (made_steps nodes.now making)) }
    ensures few { IfOk result (λ p. length p ≤ length nodes.now) }
{
    let Making {
        mut made,
        mut steps,
        numbers: _,
    } = making;
    let count = rows_at.max(cols_at) + 1;
    made.truncate(count);
    steps.truncate(count);
    let exprs = expressions_at(alloc, nodes, &made)?;
    Ok(RecoveryPlan::from_steps(exprs, steps, rows_at, cols_at))
}

/// The plan of a part with these levels and queries.
pub fn plan(alloc: Global, levels: &[Expr], queries: &[Query]) -> Result<RecoveryPlan, PlanFault>
    requires levels { length levels.now ≤ 6 }
    requires queries { length queries.now ≤ 16 }
    requires small { AreSmall (map tree levels.now) (map query_of queries.now) }
    ensures is { IfOk result (λ p. p ≡ plan_of (map tree levels.now) (map query_of queries.now)) }
    ensures row_known { OnOk result (is_known (map tree levels.now) (map query_of queries.now) (length levels.now) RowIndex ≡ true) }
    ensures col_known { OnOk result (is_known (map tree levels.now) (map query_of queries.now) (length levels.now) ColIndex ≡ true) }
    ensures rows { result ≡ Err (NotKnown Rows) → is_known (map tree levels.now) (map query_of queries.now) (length levels.now) RowIndex ≡ false }
    ensures cols { result ≡ Err (NotKnown Cols) → (is_known (map tree levels.now) (map query_of queries.now) (length levels.now) RowIndex ≡ true) × (is_known (map tree levels.now) (map query_of queries.now) (length levels.now) ColIndex ≡ false) }
    ensures few { IfOk result (λ p. length p ≤ 32 * (length levels.now + length queries.now) + 2) }
{
    let table = table_of(alloc, levels, queries)?;
    let nodes = table.as_slice();
    let making = make(alloc, nodes, levels, queries)?;
    let Some(rows_at) = step_number(&making, nodes, Node::Row) else {
        return Err(PlanFault::NotKnown { axis: Axis::Rows });
    };
    let Some(cols_at) = step_number(&making, nodes, Node::Col) else {
        return Err(PlanFault::NotKnown { axis: Axis::Cols });
    };
    Ok(cut(alloc, nodes, making, rows_at as usize, cols_at as usize)?)
}

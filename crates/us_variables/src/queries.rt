// The columns, the extent and the table of each query.
ghost use Rattle.std.specs.Prelude.{◌≡◌, ◌<◌, ◌≤◌, [], IfOk, OnOk, length, map};
ghost use Rattle.std.specs.List.{range_with_len};
ghost use Rattle.us_expr.specs.Tree.{tree};
ghost use Rattle.us_expr.specs.Value.{IsValid};
ghost use Rattle.us_format.specs.Declaration.{Enumerate, Reorder, Schedule, SumOf, axis_of, query_of};
ghost use Rattle.us_format.specs.Matrix.{indices};
ghost use Rattle.us_format.specs.Program.{entries_in, shape_in};
ghost use Rattle.us_format.specs.Queries.{enumerate_extent, order_cell};
ghost use Rattle.us_query.specs.Lanes.{spread};
ghost use Rattle.us_variables.specs.Columns.{Adds};
ghost use Rattle.us_variables.specs.Counted.{IsCountable, IsCounted};

use crate::columns::{Column, axis_of, lanes_of, numbers_of, slots_of};
use crate::tables::{Table, inverse};
use std::alloc::{AllocError, Global};
use us_expr::{Expr, Query};
use us_matrix::Matrix;
use us_query::{LaneTable, enumerate, enumerate_extent, reorder, schedule, sums};

// The extent of a query, 0 where it has none, and its table.
#[derive(Drop)]
pub struct Counted {
    pub extent: u64,
    pub table: Table,
}

// Adds the column of a sum.
fn count_sum(
    alloc: Global,
    matrix: &Matrix,
    var: u32,
    arg: &Expr,
    columns: &mut Vec<Column>,
) -> Result<(), AllocError>
    requires valid { IsValid [] (tree arg.now) }
    requires few { length matrix.now.entries ≤ 67108864 }
    ensures { OnOk result (Adds (entries_in matrix.now) (shape_in matrix.now) (SumOf var (tree arg.now)) columns.old.items columns.new.items) }
{
    let numbers = sums(alloc, matrix, arg)?;
    columns.push(Column { var, numbers })?;
    Ok(())
}

// Adds the column of an enumeration, and answers its extent.
fn count_enumerate(
    alloc: Global,
    matrix: &Matrix,
    var: u32,
    arg: &Expr,
    columns: &mut Vec<Column>,
) -> Result<u64, AllocError>
    requires valid { IsValid [] (tree arg.now) }
    requires few { length matrix.now.entries ≤ 67108864 }
    ensures adds { OnOk result (Adds (entries_in matrix.now) (shape_in matrix.now) (Enumerate var (tree arg.now)) columns.old.items columns.new.items) }
    ensures extent { IfOk result (λ n. n ≡ enumerate_extent (entries_in matrix.now) (tree arg.now)) }
{
    let numbers = enumerate(alloc, matrix, arg)?;
    columns.push(Column { var, numbers })?;
    let extent = enumerate_extent(alloc, matrix, arg)?;
    Ok(u64::from(extent))
}

// Adds the column of the ranks, and answers the order.
fn count_reorder(
    alloc: Global,
    matrix: &Matrix,
    var: u32,
    arg: &Expr,
    columns: &mut Vec<Column>,
) -> Result<Vec<u32>, AllocError>
    requires { indices (axis_of (tree arg.now)) (shape_in matrix.now) ≤ 67108864 }
    ensures adds { OnOk result (Adds (entries_in matrix.now) (shape_in matrix.now) (Reorder var (tree arg.now)) columns.old.items columns.new.items) }
    ensures order { IfOk result (λ ns. ns.items ≡ map (order_cell (entries_in matrix.now) (shape_in matrix.now) (axis_of (tree arg.now))) (range_with_len 0 (indices (axis_of (tree arg.now)) (shape_in matrix.now)))) }
{
    let axis = axis_of(arg);
    let order = reorder(alloc, matrix, axis)?;
    let ranks = inverse(alloc, &order)?;
    let numbers = numbers_of(alloc, matrix, axis, &ranks)?;
    columns.push(Column { var, numbers })?;
    Ok(order)
}

// Adds the columns of the lanes and of the slots, and answers the lanes.
fn count_schedule(
    alloc: Global,
    matrix: &Matrix,
    lane: u32,
    slot: u32,
    arg: &Expr,
    lanes: u32,
    columns: &mut Vec<Column>,
) -> Result<LaneTable, AllocError>
    requires few { indices (axis_of (tree arg.now)) (shape_in matrix.now) ≤ 67108864 }
    requires lanes { (0 < lanes) × (lanes ≤ 64) }
    ensures adds { OnOk result (Adds (entries_in matrix.now) (shape_in matrix.now) (Schedule lane slot (tree arg.now) lanes) columns.old.items columns.new.items) }
    ensures table { IfOk result (λ t. t ≡ spread (entries_in matrix.now) (shape_in matrix.now) (axis_of (tree arg.now)) lanes) }
{
    let axis = axis_of(arg);
    let table = schedule(alloc, matrix, axis, lanes)?;
    let at_lanes = lanes_of(alloc, matrix, axis, &table)?;
    let at_slots = slots_of(alloc, matrix, axis, &table)?;
    columns.push(Column {
        var: lane,
        numbers: at_lanes,
    })?;
    columns.push(Column {
        var: slot,
        numbers: at_slots,
    })?;
    Ok(table)
}

/// Adds the columns of a query, and answers its extent and its table.
pub fn count(
    alloc: Global,
    matrix: &Matrix,
    query: &Query,
    columns: &mut Vec<Column>,
) -> Result<Counted, AllocError>
    requires countable { IsCountable (shape_in matrix.now) (query_of query.now) }
    requires few { length matrix.now.entries ≤ 67108864 }
    ensures adds { OnOk result (Adds (entries_in matrix.now) (shape_in matrix.now) (query_of query.now) columns.old.items columns.new.items) }
    ensures counted { IfOk result (IsCounted (entries_in matrix.now) (shape_in matrix.now) (query_of query.now)) }
{
    match query {
        Query::Sum { var, arg } => {
            count_sum(alloc, matrix, *var, arg, columns)?;
            Ok(Counted {
                extent: 0,
                table: Table::Absent,
            })
        }
        Query::Enumerate { var, arg } => {
            let extent = count_enumerate(alloc, matrix, *var, arg, columns)?;
            Ok(Counted {
                extent,
                table: Table::Absent,
            })
        }
        Query::Reorder { var, arg } => {
            let order = count_reorder(alloc, matrix, *var, arg, columns)?;
            Ok(Counted {
                extent: 0,
                table: Table::Order(order),
            })
        }
        Query::Schedule {
            lane,
            slot,
            arg,
            lanes,
        } => {
            let table = count_schedule(alloc, matrix, *lane, *slot, arg, *lanes, columns)?;
            Ok(Counted {
                extent: u64::from(table.extent()),
                table: Table::Scheduled(table),
            })
        }
    }
}

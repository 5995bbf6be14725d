// For each entry a number, and what variable it is the value of.
ghost use Rattle.std.specs.Prelude.{◌≡◌, FitsSigned, IfOk, OnOk, map, pos, slice_index_or};
ghost use Rattle.std.specs.Int.{w64};
ghost use Rattle.us_expr.specs.Tree.{tree};
ghost use Rattle.us_format.specs.Declaration.{axis_of};
ghost use Rattle.us_format.specs.Matrix.{index_at, indices};
ghost use Rattle.us_format.specs.Program.{entries_in, plain_entry, shape_in};
ghost use Rattle.us_matrix.specs.Map.{IsMatrix};
ghost use Rattle.us_query.specs.Lanes.{lane_in, slot_in};
ghost use Rattle.us_variables.specs.Columns.{value_or};

use std::alloc::{AllocError, Global};
use us_expr::{Axis, Expr};
use us_matrix::{Matrix, Triple};
use us_query::LaneTable;

// The values of a variable at the entries.
#[derive(Drop)]
pub struct Column {
    pub var: u32,
    pub numbers: Vec<u32>,
}

// A number of a column, 0 where it has none.
fn number_at(numbers: &[u32], entry: usize) -> u32
    ensures { result ≡ slice_index_or numbers.now entry 0 }
{
    numbers.get(entry).copied().unwrap_or(0)
}

/// The value of a variable at an entry by the first column that has it, 0 where there is none.
pub fn value_in(columns: &[Column], var: u32, entry: usize) -> i64
    ensures value { result ≡ value_or columns.now var entry (pos 0) }
    ensures fits { FitsSigned w64 result }
{
    for column in columns {
        if column.var == var {
            return i64::from(number_at(&column.numbers, entry));
        }
    }
    0
}

/// The axis that an index names.
pub fn axis_of(arg: &Expr) -> Axis
    ensures { result ≡ axis_of (tree arg.now) }
{
    match arg {
        Expr::J => Axis::Cols,
        _ => Axis::Rows,
    }
}

// The row or the column of an entry.
fn index_of(t: &Triple, axis: Axis) -> u32
    ensures { result ≡ index_at axis (plain_entry t.now) }
{
    match axis {
        Axis::Rows => t.i,
        Axis::Cols => t.j,
    }
}

/// For each entry the number of its row, or of its column.
pub fn numbers_of(
    alloc: Global,
    matrix: &Matrix,
    axis: Axis,
    numbers: &[u32],
) -> Result<Vec<u32>, AllocError>
    ensures numbers { IfOk result (λ ns. ns.items ≡ map (λ x. slice_index_or numbers.now (index_at axis x) 0) (entries_in matrix.now)) }
    ensures matrix { OnOk result (IsMatrix matrix.now) }
{
    let entries = matrix.entries();
    let mut column = Vec::with_capacity(alloc, entries.len())?;
    for t in entries {
        column.push(number_at(numbers, index_of(t, axis) as usize))?;
    }
    Ok(column)
}

/// For each entry the lane of its row, or of its column.
pub fn lanes_of(
    alloc: Global,
    matrix: &Matrix,
    axis: Axis,
    table: &LaneTable,
) -> Result<Vec<u32>, AllocError>
    requires { table.now.count ≡ indices axis (shape_in matrix.now) }
    ensures { IfOk result (λ ns. ns.items ≡ map (λ x. lane_in table.now.lanes (index_at axis x)) (entries_in matrix.now)) }
{
    let entries = matrix.entries();
    let mut column = Vec::with_capacity(alloc, entries.len())?;
    for t in entries {
        column.push(table.lane(index_of(t, axis)))?;
    }
    Ok(column)
}

/// For each entry the slot of its row, or of its column.
pub fn slots_of(
    alloc: Global,
    matrix: &Matrix,
    axis: Axis,
    table: &LaneTable,
) -> Result<Vec<u32>, AllocError>
    requires { table.now.count ≡ indices axis (shape_in matrix.now) }
    ensures { IfOk result (λ ns. ns.items ≡ map (λ x. slot_in table.now.lanes (index_at axis x)) (entries_in matrix.now)) }
{
    let entries = matrix.entries();
    let mut column = Vec::with_capacity(alloc, entries.len())?;
    for t in entries {
        column.push(table.slot(index_of(t, axis)))?;
    }
    Ok(column)
}

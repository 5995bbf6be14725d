//! The ranges of a part's variables.
ghost use Rattle.std.specs.Prelude.{◌≡◌, ◌<◌, ◌≤◌, ◌^◌, All, length, map};
ghost use Rattle.us_expr.specs.Range.{index_range};
ghost use Rattle.us_expr.specs.Tree.{tree};
ghost use Rattle.us_format.specs.Coordinates.{variable_range};
ghost use Rattle.us_format.specs.Declaration.{axis_of, query_of};
ghost use Rattle.us_format.specs.Matrix.{indices};
ghost use Rattle.us_format.specs.Program.{plain_shape};
ghost use Rattle.us_build.specs.Ranges.{range_by, ranges_in};

use arrayvec::ArrayVec;
use us_expr::{Expr, Query, Range, VarRanges};
use us_matrix::Shape;
use us_variables::Variables;

/// The range of the numbers below a count.
fn index_range(count: u64) -> Range
    requires { count < 2 ^ 63 }
    ensures { result ≡ index_range count }
{
    Range {
        lo: 0,
        hi: count as i64 - 1,
    }
}

/// How many rows there are, or columns, by the index that is named.
pub fn indices(index: &Expr, shape: Shape) -> u64
    ensures is { result ≡ indices (axis_of (tree index.now)) (plain_shape shape) }
    ensures small { result < 2 ^ 32 }
{
    match index {
        Expr::J => u64::from(shape.cols),
        _ => u64::from(shape.rows),
    }
}

/// The range that a query with this extent gives a variable, if it gives one.
fn range_by(query: &Query, extent: u64, shape: Shape, name: u32) -> Option<Range>
    requires { extent < 2 ^ 63 }
    ensures { result ≡ range_by (plain_shape shape) extent (query_of query.now) name }
{
    match query {
        Query::Sum { .. } => None,
        Query::Enumerate { var, .. } => (*var == name).then_some(index_range(extent)),
        Query::Reorder { var, arg } => (*var == name).then_some(index_range(indices(arg, shape))),
        Query::Schedule {
            lane,
            slot,
            arg: _,
            lanes,
        } => {
            if *lane == name {
                Some(index_range(u64::from(*lanes)))
            } else {
                (*slot == name).then_some(index_range(extent))
            }
        }
    }
}

/// The range of a variable of these queries with their extents.
fn variable_range(queries: &[Query], extents: &[u64], shape: Shape, name: u32) -> Range
    requires extents { length extents.now ≡ length queries.now }
    requires small { All (λ n. n < 2 ^ 63) extents.now }
    ensures { result ≡ variable_range (plain_shape shape) extents.now (map query_of queries.now) name }
{
    for (k, query) in queries.iter().enumerate() {
        if let Some(range) = range_by(query, extents[k], shape, name) {
            return range;
        }
    }
    index_range(1)
}

/// The ranges of all variables of these queries, in matrices of this shape.
pub(crate) fn ranges_of(queries: &[Query], variables: &Variables, shape: Shape) -> VarRanges
    requires names { variables.now.names ≤ 32 }
    requires extents { length variables.now.extents.items ≡ length queries.now }
    requires small { All (λ n. n < 2 ^ 63) variables.now.extents.items }
    ensures rows { result.shape_rows ≡ shape.rows }
    ensures cols { result.shape_cols ≡ shape.cols }
    ensures vars { result.vars.items ≡ ranges_in (plain_shape shape) queries.now variables.now }
{
    let extents = variables.extents();
    let names = variables.values(0).len();
    let mut vars = ArrayVec::new();
    for name in 0..names {
        vars.push(variable_range(queries, extents, shape, name as u32));
    }
    VarRanges {
        shape_rows: shape.rows,
        shape_cols: shape.cols,
        vars,
    }
}

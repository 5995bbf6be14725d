//! The ranges of the variables and of the levels of a format.
ghost use Rattle.std.specs.Prelude.{◌≡◌, ◌<◌, ◌≤◌, ◌-◌, ◌^◌, All, Some, None, if◌then◌else◌, length, map, slice_index_or};
ghost use Rattle.us_expr.specs.Range.{index_range};
ghost use Rattle.us_expr.specs.Tree.{tree, RowIndex};
ghost use Rattle.us_format.specs.Coordinates.{variable_range, variable_ranges};
ghost use Rattle.us_format.specs.Declaration.{axis_of, query_of};
ghost use Rattle.us_format.specs.Matrix.{indices};
ghost use Rattle.us_judge.specs.Format.{bounds_at, is_counted, part_at, range_by, range_with};
ghost use Rattle.us_judge.specs.Views.{declaration_of, plain_part};

use crate::format::Format;
use crate::variables::{Class, is_member};
use arrayvec::ArrayVec;
use us_decl::Part;
use us_expr::{Expr, Query, Range, VarRanges, range_of};

/// The expression of a level of a part.
fn expression_of(part: &Part, level: usize) -> &Expr
    requires { level < length (plain_part part.now).levels }
    ensures { tree result.now ≡ slice_index_or (plain_part part.now).levels level RowIndex }
{
    &part.levels.as_slice()[level]
}

/// The ends of the range of a level, as far as a shape tells them.
#[derive(Clone, Copy, Debug, PartialEq, Eq)]
pub struct LevelBounds {
    /// The lower end.
    pub lo: i64,
    /// The upper end, or nothing where the level is a variable that a query counts up, so that the data decide.
    pub hi: Option<i64>,
}

/// Whether a level is a variable that a query counts up.
fn is_counted(part: &Part, level: &Expr) -> bool
    ensures { result ≡ is_counted (plain_part part.now) (tree level.now) }
{
    match level {
        Expr::Var(v) => is_member(part.queries.as_slice(), Class::Counters, *v),
        _ => false,
    }
}

/// What is told of this range, which is that of a level where no query has an extent.
fn bounds_of(part: &Part, level: usize, range: Range) -> LevelBounds
    requires { level < length (plain_part part.now).levels }
    ensures lo { result.lo ≡ range.lo }
    ensures hi { result.hi ≡ (if is_counted (plain_part part.now) (slice_index_or (plain_part part.now).levels level RowIndex) then None else Some range.hi) }
{
    let counted = is_counted(part, expression_of(part, level));
    LevelBounds {
        lo: range.lo,
        hi: (!counted).then_some(range.hi),
    }
}

/// The range of the numbers below a count.
fn index_range(count: u64) -> Range
    requires { count < 2 ^ 63 }
    ensures { result ≡ index_range count }
{
    Range {
        lo: 0,
        hi: count as i64 - 1,
    }
}

/// How many rows there are, or columns, by the index that is named.
fn indices(index: &Expr, shape_rows: u32, shape_cols: u32) -> u32
    ensures { result ≡ indices (axis_of (tree index.now)) (record { rows = shape_rows; cols = shape_cols }) }
{
    match index {
        Expr::J => shape_cols,
        _ => shape_rows,
    }
}

/// The range that a query with this extent gives a variable, if it gives one.
fn range_by(
    query: &Query,
    extent: u64,
    shape_rows: u32,
    shape_cols: u32,
    variable: usize,
) -> Option<Range>
    requires { extent < 2 ^ 63 }
    ensures { result ≡ range_by (record { rows = shape_rows; cols = shape_cols }) extent (query_of query.now) variable }
{
    match query {
        Query::Sum { .. } => None,
        Query::Enumerate { var, .. } => (*var as usize == variable).then_some(index_range(extent)),
        Query::Reorder { var, arg } => (*var as usize == variable).then_some(index_range(u64::from(
            indices(arg, shape_rows, shape_cols),
        ))),
        Query::Schedule {
            lane,
            slot,
            arg: _,
            lanes,
        } => {
            if *lane as usize == variable {
                Some(index_range(u64::from(*lanes)))
            } else {
                (*slot as usize == variable).then_some(index_range(extent))
            }
        }
    }
}

/// The range of a variable of these queries, which have these extents.
fn variable_range(
    queries: &[Query],
    extents: &[u64],
    shape_rows: u32,
    shape_cols: u32,
    variable: usize,
) -> Range
    requires { All (λ n. n ≤ 2 ^ 31) extents.now }
    ensures { result ≡ variable_range (record { rows = shape_rows; cols = shape_cols }) extents.now (map query_of queries.now) variable }
{
    match queries {
        [] => index_range(1),
        [query, later @ ..] => match extents {
            [] => index_range(1),
            [extent, more @ ..] => {
                match range_by(query, *extent, shape_rows, shape_cols, variable) {
                    Some(range) => range,
                    None => variable_range(later, more, shape_rows, shape_cols, variable),
                }
            }
        },
    }
}

/// The ranges of all variables of a part, whose queries have these extents.
fn ranges_of(part: &Part, extents: &[u64], shape_rows: u32, shape_cols: u32) -> VarRanges
    requires names { length part.now.names ≤ 32 }
    requires extents { All (λ n. n ≤ 2 ^ 31) extents.now }
    ensures rows { result.shape_rows ≡ shape_rows }
    ensures cols { result.shape_cols ≡ shape_cols }
    ensures vars { result.vars.items ≡ variable_ranges (record { rows = shape_rows; cols = shape_cols }) extents.now (plain_part part.now) }
{
    let queries = part.queries.as_slice();
    let mut vars = ArrayVec::new();
    for variable in 0..part.names.len() {
        vars.push(variable_range(queries, extents, shape_rows, shape_cols, variable));
    }
    VarRanges {
        shape_rows,
        shape_cols,
        vars,
    }
}

impl Format {
    /// The ranges of the variables of a part, in a matrix of this many rows and columns, each below 2^31. The queries of the
    /// part have these extents, 0 of one that has none. The parts are counted from 1. It takes no memory.
    pub fn variable_ranges(
        &self,
        part: usize,
        extents: &[u64],
        shape_rows: u32,
        shape_cols: u32,
    ) -> VarRanges
        requires from_one { 1 ≤ part }
        requires part { part ≤ length (declaration_of self.now).parts }
        requires extents { All (λ n. n ≤ 2 ^ 31) extents.now }
        ensures rows { result.shape_rows ≡ shape_rows }
        ensures cols { result.shape_cols ≡ shape_cols }
        ensures vars { result.vars.items
            ≡ variable_ranges (record { rows = shape_rows; cols = shape_cols }) extents.now (part_at (declaration_of self.now) (part - 1)) }
    {
        ranges_of(self.part(part), extents, shape_rows, shape_cols)
    }

    /// The range of the coordinates' values of a level, in a matrix of this many rows and columns, each below 2^31. The queries
    /// of the part have these extents, 0 of one that has none. The parts are counted from 1, the levels from 0. It takes no
    /// memory.
    pub fn level_range(
        &self,
        part: usize,
        level: usize,
        extents: &[u64],
        shape_rows: u32,
        shape_cols: u32,
    ) -> Range
        requires from_one { 1 ≤ part }
        requires part { part ≤ length (declaration_of self.now).parts }
        requires level { level < length (part_at (declaration_of self.now) (part - 1)).levels }
        requires rows { shape_rows < 2 ^ 31 }
        requires cols { shape_cols < 2 ^ 31 }
        requires extents { All (λ n. n ≤ 2 ^ 31) extents.now }
        ensures { result ≡ range_with (record { rows = shape_rows; cols = shape_cols }) extents.now (declaration_of self.now) (part - 1) level }
    {
        let ranges = self.variable_ranges(part, extents, shape_rows, shape_cols);
        range_of(expression_of(self.part(part), level), &ranges)
    }

    /// The ends of the range of a level, in a matrix of this many rows and columns, each below 2^31. The parts are counted from
    /// 1, the levels from 0. It takes no memory.
    pub fn level_bounds(
        &self,
        part: usize,
        level: usize,
        shape_rows: u32,
        shape_cols: u32,
    ) -> LevelBounds
        requires from_one { 1 ≤ part }
        requires part { part ≤ length (declaration_of self.now).parts }
        requires level { level < length (part_at (declaration_of self.now) (part - 1)).levels }
        requires rows { shape_rows < 2 ^ 31 }
        requires cols { shape_cols < 2 ^ 31 }
        ensures { result ≡ bounds_at (record { rows = shape_rows; cols = shape_cols }) (declaration_of self.now) (part - 1) level }
    {
        let the_part = self.part(part);
        let extents = [0; 16];
        let none = &extents[..the_part.queries.len()];
        let range = self.level_range(part, level, none, shape_rows, shape_cols);
        bounds_of(the_part, level, range)
    }
}

//! The extents and the tables of a part's queries.
ghost use Rattle.std.specs.Prelude.{◌≡◌, ◌+◌, ◌<◌, ◌≤◌, ◌^◌, ◌++◌, [], ◌∷◌, All, OnOk, length, map, min};
ghost use Rattle.std.specs.List.{list_any};
ghost use Rattle.us_format.specs.Declaration.{has_extent, has_table, query_of};
ghost use Rattle.us_format.specs.Lists.{nth};
ghost use Rattle.us_format.specs.Program.{plain_shape};
ghost use Rattle.us_format.specs.Reading.{limit};
ghost use Rattle.us_variables.specs.Counted.{tables_in};
ghost use Rattle.us_parts.specs.Cells.{extent_lists, has_long_axis, queries_cells, query_cells, table_lists};

use std::alloc::{AllocError, Global};
use us_build::{LIMIT, indices};
use us_expr::Query;
use us_matrix::{Buffers, Shape};
use us_variables::Variables;

/// Whether a query orders or shares out an axis of more indices than the limit.
fn has_long_axis(query: &Query, shape: Shape) -> bool
    ensures { result ≡ has_long_axis (plain_shape shape) (query_of query.now) }
{
    match query {
        Query::Reorder { arg, .. } => indices(arg, shape) > LIMIT,
        Query::Schedule { arg, .. } => indices(arg, shape) > LIMIT,
        _ => false,
    }
}

/// Whether some query does so.
pub(crate) fn has_some_long_axis(queries: &[Query], shape: Shape) -> bool
    ensures { result ≡ list_any (has_long_axis (plain_shape shape)) (map query_of queries.now) }
{
    for query in queries {
        if has_long_axis(query, shape) {
            return true;
        }
    }
    false
}

/// How many cells the extent and the table of a query have.
fn query_cells(query: &Query, extent: u64, shape: Shape) -> u64
    requires { extent ≤ limit }
    ensures cells { result ≡ query_cells (plain_shape shape) (query_of query.now) extent }
    ensures fits { result < 2 ^ 59 }
{
    match query {
        Query::Sum { .. } => 0,
        Query::Enumerate { .. } => 1,
        Query::Reorder { arg, .. } => indices(arg, shape),
        Query::Schedule { lanes, .. } => 1 + u64::from(*lanes) * extent,
    }
}

/// How many cells the extents and the tables of queries have, or one more than the limit where these are more.
pub(crate) fn queries_cells(queries: &[Query], extents: &[u64], shape: Shape) -> u64
    requires extents { length extents.now ≡ length queries.now }
    requires small { All (λ n. n ≤ limit) extents.now }
    ensures { result ≡ min (queries_cells (plain_shape shape) (map query_of queries.now) extents.now) (limit + 1) }
{
    let mut cells = 0;
    for (k, query) in queries.iter().enumerate() {
        cells += query_cells(query, extents[k], shape);
        if cells > LIMIT {
            return LIMIT + 1;
        }
    }
    cells
}

/// Whether a query has an extent.
fn has_extent(query: &Query) -> bool
    ensures { result ≡ has_extent (query_of query.now) }
{
    matches!(query, Query::Enumerate { .. } | Query::Schedule { .. })
}

/// Whether a query has a table.
fn has_table(query: &Query) -> bool
    ensures { result ≡ has_table (query_of query.now) }
{
    matches!(query, Query::Reorder { .. } | Query::Schedule { .. })
}

/// Adds the extent of a query, if it has one.
fn push_extent(
    alloc: Global,
    lists: &mut Buffers,
    query: &Query,
    extent: u64,
) -> Result<(), AllocError>
    requires { extent ≤ limit }
    ensures { OnOk result (lists.new ≡ lists.old ++ extent_lists (query_of query.now ∷ []) (extent ∷ [])) }
{
    if has_extent(query) {
        lists.push(vec![in alloc; extent as i64; 1]?)?;
    }
    Ok(())
}

/// Adds the extents of queries.
pub fn push_extents(
    alloc: Global,
    lists: &mut Buffers,
    queries: &[Query],
    extents: &[u64],
) -> Result<(), AllocError>
    requires extents { length extents.now ≡ length queries.now }
    requires small { All (λ n. n ≤ limit) extents.now }
    ensures { OnOk result (lists.new ≡ lists.old ++ extent_lists (map query_of queries.now) extents.now) }
{
    for (k, query) in queries.iter().enumerate() {
        push_extent(alloc, lists, query, extents[k])?;
    }
    Ok(())
}

/// Adds the table of a query, if it has one.
fn push_table(
    alloc: Global,
    lists: &mut Buffers,
    query: &Query,
    variables: &Variables,
    number: usize,
) -> Result<(), AllocError>
    requires inside { number < length (tables_in variables.now) }
    requires small { All (λ cells. length cells ≤ limit) (tables_in variables.now) }
    ensures { OnOk result (lists.new ≡ lists.old ++ table_lists (query_of query.now ∷ []) (nth (tables_in variables.now) number ∷ [])) }
{
    if has_table(query) {
        lists.push(variables.table(alloc, number)?)?;
    }
    Ok(())
}

/// Adds the tables of queries.
pub fn push_tables(
    alloc: Global,
    lists: &mut Buffers,
    queries: &[Query],
    variables: &Variables,
) -> Result<(), AllocError>
    requires tables { length (tables_in variables.now) ≡ length queries.now }
    requires small { All (λ cells. length cells ≤ limit) (tables_in variables.now) }
    ensures { OnOk result (lists.new ≡ lists.old ++ table_lists (map query_of queries.now) (tables_in variables.now)) }
{
    for (k, query) in queries.iter().enumerate() {
        push_table(alloc, lists, query, variables, k)?;
    }
    Ok(())
}

//! Which extents bound levels.

ghost use Rattle.std.specs.Prelude.{◌≡◌, ◌+◌, ◌<◌, ◌≤◌, ◌^◌, length, map, slice_index_or};
ghost use Rattle.std.specs.List.{count_by};
ghost use Rattle.us_expr.specs.Tree.{tree, RowIndex};
ghost use Rattle.us_format.specs.Declaration.{has_extent, query_of};
ghost use Rattle.us_judge.specs.Views.{plain_part};
ghost use Rattle.us_gen_places.specs.Places as places;
ghost use Rattle.us_gen_parts_build.specs.Parts as parts;

use us_decl::Part;
use us_expr::{Expr, Query};

/// Whether a query has an extent.
fn has_extent(query: &Query) -> bool
    ensures { result ≡ has_extent (query_of query.now) }
{
    matches!(query, Query::Enumerate { .. } | Query::Schedule { .. })
}

/// How many of these queries have an extent.
pub(crate) fn extent_count(queries: &[Query]) -> usize
    ensures count { result ≡ count_by has_extent (map query_of queries.now) }
    ensures few { result ≤ length queries.now }
{
    match queries {
        [] => 0,
        [query, rest @ ..] => usize::from(has_extent(query)) + extent_count(rest),
    }
}

/// The dim of a variable's extent, where the queries behind this one tell it so. Its own extent has the dim `dim`.
fn by_query(query: &Query, variable: u32, dim: u32, later: Option<u32>) -> Option<u32>
    ensures { result ≡ places.by_query (query_of query.now) variable dim later }
{
    match query {
        Query::Sum { var: _, arg: _ } => later,
        Query::Enumerate { var, arg: _ } => { if *var == variable { Some(dim) } else { later } }
        Query::Reorder { var, arg: _ } => { if *var == variable { None } else { later } }
        Query::Schedule {
            lane,
            slot,
            arg: _,
            lanes: _,
        } => {
            if *lane == variable {
                None
            } else if *slot == variable {
                Some(dim)
            } else {
                later
            }
        }
    }
}

/// The dim behind that of a query's extent, if it has one.
fn next_dim(query: &Query, dim: u32) -> u32
    requires { dim + 1 < 2 ^ 32 }
    ensures is { result ≡ parts.next_dim (query_of query.now) dim }
    ensures near { result ≤ dim + 1 }
{
    if has_extent(query) { dim + 1 } else { dim }
}

/// The dim of the extent that bounds a variable, where the extents of the queries have the dims from `dim` on.
fn extent_dim(queries: &[Query], variable: u32, dim: u32) -> Option<u32>
    requires { dim + length queries.now < 2 ^ 32 }
    ensures { result ≡ parts.extent_dim dim (map query_of queries.now) variable }
{
    match queries {
        [] => None,
        [query, rest @ ..] => {
            let later = extent_dim(rest, variable, next_dim(query, dim));
            by_query(query, variable, dim, later)
        }
    }
}

/// The dim of the extent that bounds an expression that is one variable.
fn bound_of(queries: &[Query], level: &Expr, dim: u32) -> Option<u32>
    requires { dim + length queries.now < 2 ^ 32 }
    ensures { result ≡ parts.bound_of dim (map query_of queries.now) (tree level.now) }
{
    match level {
        Expr::Var(variable) => extent_dim(queries, *variable, dim),
        _ => None,
    }
}

/// The expression of a level of a part.
fn expression_of(part: &Part, level: usize) -> &Expr
    requires { level < length (plain_part part.now).levels }
    ensures { tree result.now ≡ slice_index_or (plain_part part.now).levels level RowIndex }
{
    &part.levels.as_slice()[level]
}

/// The dim of the extent that bounds a level of a part that is one variable.
pub(crate) fn bound_at(part: &Part, level: usize, dim: u32) -> Option<u32>
    requires queries { dim + length (plain_part part.now).queries < 2 ^ 32 }
    requires level { level < length (plain_part part.now).levels }
    ensures { result ≡ parts.bound_of dim (plain_part part.now).queries (slice_index_or (plain_part part.now).levels level RowIndex) }
{
    bound_of(part.queries.as_slice(), expression_of(part, level), dim)
}

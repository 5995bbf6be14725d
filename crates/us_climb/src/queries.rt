//! How many extents and tables the queries of a part have.
ghost use Rattle.std.specs.Prelude.{◌≡◌, ◌+◌, ◌≤◌, [], ◌∷◌, length, map};
ghost use Rattle.std.specs.List.{count_by};
ghost use Rattle.us_format.specs.Declaration.{has_extent, has_table, query_of};
ghost use Rattle.us_format.specs.Reading.{extent_count, table_count};
ghost use Rattle.us_judge.specs.Short.{IsShort};
ghost use Rattle.us_judge.specs.Views.{plain_part};

use us_decl::Part;
use us_expr::Query;

/// Whether a query has an extent.
pub fn has_extent(query: &Query) -> bool
    ensures { result ≡ has_extent (query_of query.now) }
{
    matches!(query, Query::Enumerate { .. } | Query::Schedule { .. })
}

/// Whether a query has a table.
pub fn has_table(query: &Query) -> bool
    ensures { result ≡ has_table (query_of query.now) }
{
    matches!(query, Query::Reorder { .. } | Query::Schedule { .. })
}

/// How many of these queries have an extent.
pub fn extent_count(queries: &[Query]) -> usize
    requires { length queries.now ≤ 16 }
    ensures count { result ≡ count_by has_extent (map query_of queries.now) }
    ensures few { result ≤ length queries.now }
{
    match queries {
        [] => 0,
        [query, rest @ ..] => usize::from(has_extent(query)) + extent_count(rest),
    }
}

/// How many of these queries have a table.
pub fn table_count(queries: &[Query]) -> usize
    requires { length queries.now ≤ 16 }
    ensures count { result ≡ count_by has_table (map query_of queries.now) }
    ensures few { result ≤ length queries.now }
{
    match queries {
        [] => 0,
        [query, rest @ ..] => usize::from(has_table(query)) + table_count(rest),
    }
}

/// The number of the first buffer of a part behind its extents and tables.
pub fn first_own(part: &Part) -> usize
    requires { IsShort (plain_part part.now) }
    ensures is { result ≡ extent_count (plain_part part.now) + table_count (plain_part part.now) }
    ensures few { result ≤ 32 }
{
    let queries = part.queries.as_slice();
    extent_count(queries) + table_count(queries)
}

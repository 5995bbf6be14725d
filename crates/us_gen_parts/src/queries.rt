//! The extents and the tables of queries.
ghost use Rattle.std.specs.Prelude.{◌≡◌, ◌+◌, ◌<◌, ◌≤◌, ◌^◌, ◌++◌, ℕ, Some, length, map, slice_index_or, IfOk};
ghost use Rattle.std.specs.List.{count_by};
ghost use Rattle.us_expr.specs.Tree.{tree, RowIndex};
ghost use Rattle.us_format.specs.Declaration.{has_extent, has_table, query_of};
ghost use Rattle.us_format.specs.Reading.{extent_count, table_count};
ghost use Rattle.us_judge.specs.Short.{IsShort};
ghost use Rattle.us_judge.specs.Views.{plain_part};
ghost use Rattle.us_gen_places.specs.Places as places;

use std::alloc::AllocError;
use us_code::Dim;
use us_decl::Part;
use us_expr::{Expr, Query};
use us_gen_places::PartStart;
use us_gen_recover::Table;

/// Whether a query has an extent.
fn has_extent(query: &Query) -> bool
    ensures { result ≡ has_extent (query_of query.now) }
{
    matches!(query, Query::Enumerate { .. } | Query::Schedule { .. })
}

/// Whether a query has a table.
fn has_table(query: &Query) -> bool
    ensures { result ≡ has_table (query_of query.now) }
{
    matches!(query, Query::Reorder { .. } | Query::Schedule { .. })
}

/// How many of these queries have an extent.
pub(crate) fn extent_count(queries: &[Query]) -> usize
    requires { length queries.now ≤ 16 }
    ensures count { result ≡ count_by has_extent (map query_of queries.now) }
    ensures few { result ≤ length queries.now }
{
    match queries {
        [] => 0,
        [query, rest @ ..] => usize::from(has_extent(query)) + extent_count(rest),
    }
}

/// How many of these queries have a table.
fn table_count(queries: &[Query]) -> usize
    requires { length queries.now ≤ 16 }
    ensures count { result ≡ count_by has_table (map query_of queries.now) }
    ensures few { result ≤ length queries.now }
{
    match queries {
        [] => 0,
        [query, rest @ ..] => usize::from(has_table(query)) + table_count(rest),
    }
}

/// The number of the first buffer of a part behind its extents and tables.
pub(crate) fn first_own(part: &Part) -> usize
    requires { IsShort (plain_part part.now) }
    ensures is { result ≡ extent_count (plain_part part.now) + table_count (plain_part part.now) }
    ensures few { result ≤ 32 }
{
    let queries = part.queries.as_slice();
    extent_count(queries) + table_count(queries)
}

/// The query that gives a variable the numbers below its extent. The queries are numbered from `number` on.
fn counting_query(queries: &[Query], variable: u32, number: u32) -> Option<u32>
    requires { number + length queries.now < 2 ^ 32 }
    ensures is { result ≡ places.counting_query number (map query_of queries.now) variable }
    ensures below { (q : ℕ) → result ≡ Some q → q < number + length queries.now }
{
    match queries {
        [] => None,
        [query, rest @ ..] => {
            let later = counting_query(rest, variable, number + 1);
            by_query(query, variable, number, later)
        }
    }
}

/// The query of a variable, where the queries behind this one, which has a number, tell it so.
fn by_query(query: &Query, variable: u32, number: u32, later: Option<u32>) -> Option<u32>
    ensures { result ≡ places.by_query (query_of query.now) variable number later }
{
    match query {
        Query::Sum { var: _, arg: _ } => later,
        Query::Enumerate { var, arg: _ } => {
            if *var == variable {
                Some(number)
            } else {
                later
            }
        }
        Query::Reorder { var, arg: _ } => { if *var == variable { None } else { later } }
        Query::Schedule {
            lane,
            slot,
            arg: _,
            lanes: _,
        } => {
            if *lane == variable {
                None
            } else if *slot == variable {
                Some(number)
            } else {
                later
            }
        }
    }
}

/// The query whose extent bounds an expression that is one variable.
fn counted_by(queries: &[Query], level: &Expr) -> Option<u32>
    requires { length queries.now ≤ 16 }
    ensures is { result ≡ places.counted_by (map query_of queries.now) (tree level.now) }
    ensures below { (q : ℕ) → result ≡ Some q → q < 16 }
{
    match level {
        Expr::Var(variable) => counting_query(queries, *variable, 0),
        _ => None,
    }
}

/// The expression of a level of a part.
fn expression_of(part: &Part, level: usize) -> &Expr
    requires { level < length (plain_part part.now).levels }
    ensures { tree result.now ≡ slice_index_or (plain_part part.now).levels level RowIndex }
{
    &part.levels.as_slice()[level]
}

/// The query whose extent bounds a level of a part that is one variable.
pub(crate) fn counted_at(part: &Part, level: usize) -> Option<u32>
    requires short { IsShort (plain_part part.now) }
    requires level { level < length (plain_part part.now).levels }
    ensures is { result ≡ places.counted_by (plain_part part.now).queries (slice_index_or (plain_part part.now).levels level RowIndex) }
    ensures below { (q : ℕ) → result ≡ Some q → q < 16 }
{
    counted_by(part.queries.as_slice(), expression_of(part, level))
}

/// The place of the table of query `number`, where the next table is the buffer `next` of the part.
fn table_at(query: &Query, start: PartStart, next: u32, number: u32) -> Table
    requires source { start.source + next < 2 ^ 32 }
    requires dim { start.dim + number < 2 ^ 32 }
    ensures { result ≡ places.table_at start next number (query_of query.now) }
{
    let source = if has_table(query) {
        start.source + next
    } else {
        start.source
    };
    let extent = if has_extent(query) {
        Dim::Name(start.dim + number)
    } else {
        Dim::Number(0)
    };
    Table { source, extent }
}

/// Puts the places of the tables of queries behind others. The next table is the buffer `next` of the part; the queries
/// are numbered from `number` on.
pub(crate) fn push_tables(
    tables: &mut Vec<Table>,
    queries: &[Query],
    start: PartStart,
    next: u32,
    number: u32,
) -> Result<(), AllocError>
    requires source { start.source + next + length queries.now < 2 ^ 32 }
    requires dim { start.dim + number + length queries.now < 2 ^ 32 }
    ensures { IfOk result (λ _. tables.new.items ≡ tables.old.items ++ places.tables_from start next number (map query_of queries.now)) }
{
    match queries {
        [] => Ok(()),
        [query, rest @ ..] => {
            tables.push(table_at(query, start, next, number))?;
            let later = if has_table(query) { next + 1 } else { next };
            push_tables(tables, rest, start, later, number + 1)
        }
    }
}

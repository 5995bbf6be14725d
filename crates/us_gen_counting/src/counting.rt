//! The queries of a part, one after the other.

ghost use Rattle.std.specs.Prelude.{◌≡◌, ◌+◌, ◌*◌, ◌<◌, ◌≤◌, ◌^◌, ◌++◌, All, IfOk, OnOk, length, map, nat_eq, Some, None, if◌then◌else◌};
ghost use Rattle.us_code.specs.Plain.{phase_tree};
ghost use Rattle.us_expr.specs.Value.{IsWithin};
ghost use Rattle.us_format.specs.Lists.{among};
ghost use Rattle.us_format.specs.Declaration.{argument, defines, has_extent, has_table, query_of};
ghost use Rattle.us_format.specs.Program.{plain_shape};
ghost use Rattle.us_gen_counting.specs.Phases as counted;
ghost use Rattle.us_gen_counting.specs.Answers.{Answers};

use crate::queries::query_phases;
use arrayvec::ArrayVec;
use sqlite_items::Items;
use std::alloc::{AllocError, Global};
use us_code::{Columns, Numbers, Phases, QueryPiece};
use us_expr::Query;
use us_matrix::Shape;

/// The phases that count queries, one after the other.
pub(crate) fn count_phases(
    alloc: Global,
    shape: Shape,
    columns: &Columns,
    queries: &[Query],
    next: u32,
) -> Result<Phases, AllocError>
    requires within { All (λ q. IsWithin 32 (argument (query_of q))) queries.now }
    requires room { next + 64 * (length queries.now + 1) < 2 ^ 32 }
    ensures { IfOk result (λ ps. map phase_tree ps ≡ counted.count_phases (plain_shape shape) columns.now (map query_of queries.now) next) }
{
    match queries {
        [] => Ok(Items::new(alloc)),
        [query, rest @ ..] => {
            let mut phases = query_phases(alloc, shape, columns, query, next)?;
            let others = count_phases(alloc, shape, columns, rest, next + 64)?;
            phases.append(others)?;
            Ok(phases)
        }
    }
}

/// A column, if a variable is the one wanted.
fn if_same(var: u32, wanted: u32, column: u32) -> Option<u32>
    ensures { result ≡ (if nat_eq wanted var then Some column else None) }
{
    if wanted == var { Some(column) } else { None }
}

/// The column of a variable, if the query defines it.
fn variable_column(query: &Query, var: u32, next: u32) -> Option<u32>
    requires { next + 64 < 2 ^ 32 }
    ensures { result ≡ (if among var (defines (query_of query.now)) then Some (counted.variable_column (query_of query.now) var next) else None) }
{
    match query {
        Query::Sum { var: own, arg: _ } => if_same(*own, var, next + 2),
        Query::Enumerate { var: own, arg: _ } => if_same(*own, var, next + 2),
        Query::Reorder { var: own, arg: _ } => if_same(*own, var, next + 2),
        Query::Schedule {
            lane,
            slot,
            arg: _,
            lanes: _,
        } => if_same(*lane, var, next + 2).or(if_same(*slot, var, next + 5)),
    }
}

/// The column of a variable by the first query that defines it, or `other`.
pub(crate) fn column_of(queries: &[Query], var: u32, next: u32, other: u32) -> u32
    requires { next + 64 * (length queries.now + 1) < 2 ^ 32 }
    ensures { result ≡ counted.column_of (map query_of queries.now) var next other }
{
    match queries {
        [] => other,
        [query, rest @ ..] => match variable_column(query, var, next) {
            Some(column) => column,
            None => column_of(rest, var, next + 64, other),
        },
    }
}

/// The columns of the variables. Those that no query defines have that of the rows.
fn variable_columns(
    columns: &Columns,
    queries: &[Query],
    names: usize,
    next: u32,
) -> ArrayVec<u32, 32>
    requires names { names ≤ 32 }
    requires room { next + 64 * (length queries.now + 1) < 2 ^ 32 }
    ensures { result.items ≡ counted.variable_columns columns.now (map query_of queries.now) names next }
{
    let mut vars = ArrayVec::new();
    for var in 0..names {
        vars.push(column_of(queries, var as u32, next, columns.i));
    }
    vars
}

/// Whether a query has an extent.
fn has_extent(query: &Query) -> bool
    ensures { result ≡ has_extent (query_of query.now) }
{
    matches!(query, Query::Enumerate { .. } | Query::Schedule { .. })
}

/// Whether a query has a table.
fn has_table(query: &Query) -> bool
    ensures { result ≡ has_table (query_of query.now) }
{
    matches!(query, Query::Reorder { .. } | Query::Schedule { .. })
}

/// The buffers of the extents, behind others.
fn push_extents(queries: &[Query], next: u32, buffers: &mut Numbers) -> Result<(), AllocError>
    requires { next + 64 * (length queries.now + 1) < 2 ^ 32 }
    ensures { OnOk result (buffers.new ≡ buffers.old ++ counted.extents (map query_of queries.now) next) }
{
    match queries {
        [] => Ok(()),
        [query, rest @ ..] => {
            if has_extent(query) {
                buffers.push(next + 3)?;
                push_extents(rest, next + 64, buffers)
            } else {
                push_extents(rest, next + 64, buffers)
            }
        }
    }
}

/// The buffers of the tables, behind others.
fn push_tables(queries: &[Query], next: u32, buffers: &mut Numbers) -> Result<(), AllocError>
    requires { next + 64 * (length queries.now + 1) < 2 ^ 32 }
    ensures { OnOk result (buffers.new ≡ buffers.old ++ counted.tables (map query_of queries.now) next) }
{
    match queries {
        [] => Ok(()),
        [query, rest @ ..] => {
            if has_table(query) {
                buffers.push(next + 11)?;
                push_tables(rest, next + 64, buffers)
            } else {
                push_tables(rest, next + 64, buffers)
            }
        }
    }
}

/// The buffers of the extents and then of the tables.
fn extents_and_tables(alloc: Global, queries: &[Query], next: u32) -> Result<Numbers, AllocError>
    requires { next + 64 * (length queries.now + 1) < 2 ^ 32 }
    ensures { IfOk result (λ ns. ns ≡ counted.buffers (map query_of queries.now) next) }
{
    let mut buffers = Items::new(alloc);
    push_extents(queries, next, &mut buffers)?;
    push_tables(queries, next, &mut buffers)?;
    Ok(buffers)
}

/// The phases that count the queries of a part with `names` variables over the columns of its entries, the columns with
/// those of the variables, and the buffers of the extents and then of the tables, each in the order of the queries. They
/// name registers, buffers and dims from `next` on, 64 for each query. It fails only for want of memory.
pub fn count_list(
    alloc: Global,
    shape: Shape,
    columns: &Columns,
    queries: &[Query],
    names: usize,
    next: u32,
) -> Result<QueryPiece, AllocError>
    requires within { All (λ q. IsWithin 32 (argument (query_of q))) queries.now }
    requires names { names ≤ 32 }
    requires room { next + 64 * (length queries.now + 1) < 2 ^ 32 }
    ensures phases { IfOk result (λ p. map phase_tree p.phases ≡ counted.count_phases (plain_shape shape) columns.now (map query_of queries.now) next) }
    ensures columns { IfOk result (λ p. Answers columns.now (map query_of queries.now) names next p.columns) }
    ensures buffers { IfOk result (λ p. p.buffers ≡ counted.buffers (map query_of queries.now) next) }
{
    let phases = count_phases(alloc, shape, columns, queries, next)?;
    let buffers = extents_and_tables(alloc, queries, next)?;
    let columns = Columns {
        count: columns.count,
        i: columns.i,
        j: columns.j,
        v: columns.v,
        vars: variable_columns(columns, queries, names, next),
    };
    Ok(QueryPiece {
        phases,
        columns,
        buffers,
    })
}

//! The extents and tables that stand before the levels of a part.
ghost use Rattle.std.specs.Prelude.{◌≡◌, ◌+◌, ◌-◌, ◌<◌, ◌≤◌, ◌^◌, ◌++◌, ℤ, List, length, map};
ghost use Rattle.us_expr.specs.Tree.{tree};
ghost use Rattle.us_format.specs.Declaration.{axis_of, query_of};
ghost use Rattle.us_format.specs.Lists.{nth, cell, nat_of};
ghost use Rattle.us_format.specs.Matrix.{indices};
ghost use Rattle.us_format.specs.Program.{plain_shape};
ghost use Rattle.us_format.specs.Reading.{extent_count, extent_tests, extents_in, is_extent, table_fits, table_tests, tables_in};
ghost use Rattle.us_invert.specs.Recovery.{tables_of};
ghost use Rattle.us_judge.specs.Short.{IsShort};
ghost use Rattle.us_judge.specs.Views.{declaration_of, plain_part};
ghost use Rattle.us_climb.specs.Layout.{first_failing};
ghost use Rattle.us_climb.specs.Own.{buffers_before};
ghost use Rattle.us_climb.specs.QueryTables.{tables_from};

use crate::cells::{cell_of, list_at};
use crate::queries::{extent_count, has_extent, has_table};
use arrayvec::ArrayVec;
use us_decl::Part;
use us_expr::{Expr, Query};
use us_judge::Format;
use us_matrix::{Buffers, Shape};

/// The greatest extent.
const GREATEST: i64 = 67108864;

/// The number that stands for no table: no format has so many buffers.
const NO_TABLE: u32 = u32::MAX;

/// Whether a list is one cell, from 0 to 67108864.
fn is_extent(list: &[i64]) -> bool
    ensures { result ≡ is_extent list.now }
{
    match list {
        [cell] => *cell >= 0 && *cell <= GREATEST,
        _ => false,
    }
}

/// The first buffer that is no extent, the next extent being that with this number.
pub fn extents_misfit(queries: &[Query], number: usize, buffers: &Buffers) -> Option<u64>
    requires { number + length queries.now < 2 ^ 63 }
    ensures { result ≡ first_failing (extent_tests number buffers.now (map query_of queries.now)) }
{
    match queries {
        [] => None,
        [query, rest @ ..] => {
            if !has_extent(query) {
                extents_misfit(rest, number, buffers)
            } else if is_extent(list_at(buffers, number)) {
                extents_misfit(rest, number + 1, buffers)
            } else {
                Some(number as u64)
            }
        }
    }
}

/// The number itself, or 0 where it is negative.
fn nat_of(z: i64) -> u64
    ensures { result ≡ nat_of z }
{
    if z < 0 { 0 } else { z.unsigned_abs() }
}

/// The extents of some queries at the end of others, the next extent being that with this number.
fn push_extents(
    queries: &[Query],
    number: usize,
    buffers: &Buffers,
    extents: &mut ArrayVec<u64, 16>,
)
    requires number { number + length queries.now < 2 ^ 63 }
    requires room { length extents.old.items + length queries.now ≤ 16 }
    ensures { extents.new.items ≡ extents.old.items ++ extents_in number buffers.now (map query_of queries.now) }
{
    match queries {
        [] => {}
        [query, rest @ ..] => {
            if has_extent(query) {
                extents.push(nat_of(cell_of(list_at(buffers, number), 0)));
                push_extents(rest, number + 1, buffers, extents);
            } else {
                extents.push(0);
                push_extents(rest, number, buffers, extents);
            }
        }
    }
}

/// The extents of the queries of a part, 0 of one that has none. The first buffer of the part has the number `first`.
pub fn extents_of(part: &Part, first: usize, buffers: &Buffers) -> ArrayVec<u64, 16>
    requires short { IsShort (plain_part part.now) }
    requires base { first < 2 ^ 32 }
    ensures { result.items ≡ extents_in first buffers.now (plain_part part.now).queries }
{
    let mut extents = ArrayVec::new();
    push_extents(part.queries.as_slice(), first, buffers, &mut extents);
    extents
}

/// How many rows there are, or columns, by the index that is named.
fn indices(index: &Expr, shape: Shape) -> u32
    ensures { result ≡ indices (axis_of (tree index.now)) (plain_shape shape) }
{
    match index {
        Expr::J => shape.cols,
        _ => shape.rows,
    }
}

/// Whether a table is as long as its query of this extent wants.
fn table_fits(query: &Query, extent: u64, cells: &[i64], shape: Shape) -> bool
    ensures { result ≡ table_fits (plain_shape shape) (query_of query.now) extent cells.now }
{
    let len = cells.len() as u128;
    match query {
        Query::Reorder { arg, .. } => len == u128::from(indices(arg, shape)),
        Query::Schedule { arg, lanes, .. } => {
            len == u128::from(*lanes) * u128::from(extent) && u128::from(indices(arg, shape)) <= len
        }
        Query::Sum { .. } | Query::Enumerate { .. } => true,
    }
}

/// The first table that isn't as long as its query wants, the next table being the buffer with this number.
pub fn tables_misfit(
    queries: &[Query],
    extents: &[u64],
    number: usize,
    shape: Shape,
    buffers: &Buffers,
) -> Option<u64>
    requires { number + length queries.now < 2 ^ 63 }
    ensures { result ≡ first_failing (table_tests (plain_shape shape) number buffers.now (map query_of queries.now) extents.now) }
{
    match queries {
        [] => None,
        [query, rest @ ..] => match extents {
            [] => None,
            [extent, more @ ..] => {
                if !has_table(query) {
                    tables_misfit(rest, more, number, shape, buffers)
                } else if table_fits(query, *extent, list_at(buffers, number), shape) {
                    tables_misfit(rest, more, number + 1, shape, buffers)
                } else {
                    Some(number as u64)
                }
            }
        },
    }
}

/// The numbers of the tables of some queries at the end of others, the next table being the buffer with this number.
fn push_tables(queries: &[Query], number: u32, at: &mut ArrayVec<u32, 16>)
    requires number { number + length queries.now < 2 ^ 32 }
    requires room { length at.old.items + length queries.now ≤ 16 }
    ensures { at.new.items ≡ at.old.items ++ tables_from number (map query_of queries.now) }
{
    match queries {
        [] => {}
        [query, rest @ ..] => {
            if has_table(query) {
                at.push(number);
                push_tables(rest, number + 1, at);
            } else {
                at.push(NO_TABLE);
                push_tables(rest, number, at);
            }
        }
    }
}

/// The numbers of the buffers that are the tables of the queries of a part, past all buffers for a query that has none. The
/// first buffer of the part has the number `first`.
pub fn tables_at(part: &Part, first: usize) -> ArrayVec<u32, 16>
    requires short { IsShort (plain_part part.now) }
    requires base { first < 2 ^ 31 }
    ensures { (bufs : List (List ℤ)) → length bufs < 2 ^ 32
        → tables_of bufs result.items ≡ tables_in (first + extent_count (plain_part part.now)) bufs (plain_part part.now).queries }
{
    let queries = part.queries.as_slice();
    let number = first + extent_count(queries);
    let mut at = ArrayVec::new();
    push_tables(queries, number as u32, &mut at);
    at
}

/// The number of the first buffer of the part with this number, counted from 1: how many buffers the parts before it have.
pub fn first_buffer(format: &Format, number: usize) -> usize
    requires from_one { 1 ≤ number }
    requires part { number ≤ length (declaration_of format.now).parts }
    ensures is { result ≡ buffers_before (declaration_of format.now).parts (number - 1) }
    ensures few { result < 2 ^ 31 }
{
    let _ = format.first_part();
    let mut first = 0;
    for before in 1..number {
        first += format.part_buffers(before);
    }
    first
}

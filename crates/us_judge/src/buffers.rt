//! How many buffers a part has.
ghost use Rattle.std.specs.Prelude.{◌≡◌, ◌<◌, ◌≤◌, [], ◌∷◌, length, map, filter};
ghost use Rattle.us_format.specs.Declaration.{query_of};
ghost use Rattle.us_format.specs.Packs.{CellsOf, level_pieces, is_packed, own_pieces};
ghost use Rattle.us_format.specs.Reading.{buffer_count};
ghost use Rattle.us_judge.specs.Buffers.{is_own, made_by};
ghost use Rattle.us_judge.specs.Kinds.{kinds_of};
ghost use Rattle.us_judge.specs.Short.{IsShort};
ghost use Rattle.us_judge.specs.Views.{column_of, plain_part};

use crate::packs::is_in_some;
use us_decl::{Column, Part};
use us_expr::Query;
use us_format::Kind;

/// How many extents and tables a query has.
fn made_by(query: &Query) -> usize
    ensures count { result ≡ made_by (query_of query.now ∷ []) }
    ensures few { result ≤ 2 }
{
    match query {
        Query::Sum { .. } => 0,
        Query::Enumerate { .. } | Query::Reorder { .. } => 1,
        Query::Schedule { .. } => 2,
    }
}

/// How many extents and tables the queries have.
fn made_by_all(queries: &[Query]) -> usize
    requires { length queries.now ≤ 16 }
    ensures count { result ≡ made_by (map query_of queries.now) }
    ensures few { result ≤ 32 }
{
    let mut count = 0;
    for query in queries {
        count += made_by(query);
    }
    count
}

/// Whether some pack of a part has a column.
pub fn is_packed(part: &Part, column: Column) -> bool
    ensures { result ≡ is_packed (plain_part part.now) (CellsOf (column_of column)) }
{
    is_in_some(column, part.packs.as_slice())
}

/// How many buffers of its own a column has: one, unless it is in a pack.
fn own_cells(part: &Part, column: Column) -> usize
    ensures count { result ≡ length (filter (is_own (plain_part part.now)) (CellsOf (column_of column) ∷ [])) }
    ensures few { result ≤ 1 }
{
    if is_packed(part, column) { 0 } else { 1 }
}

/// How many buffers of its own a level has.
pub fn own_of_level(part: &Part, kind: Kind, level: usize) -> usize
    requires { level ≤ 16 }
    ensures count { result ≡ length (filter (is_own (plain_part part.now)) (level_pieces level kind)) }
    ensures few { result ≤ 2 }
{
    match kind {
        Kind::Full => 0,
        Kind::Compressed | Kind::Listed => 1 + own_cells(part, Column::Level(level as u32)),
        Kind::Slot => own_cells(part, Column::Level(level as u32)),
    }
}

/// How many buffers the levels and the values of a part have outside its packs.
fn own_buffers(part: &Part, kinds: &[Kind]) -> usize
    requires kinds { kinds.now ≡ kinds_of (plain_part part.now) }
    requires short { length kinds.now ≤ 16 }
    ensures count { result ≡ length (own_pieces (plain_part part.now)) }
    ensures few { result ≤ 33 }
{
    let mut count = 0;
    for level in 0..kinds.len() {
        count += own_of_level(part, kinds[level], level);
    }
    count + own_cells(part, Column::Val)
}

/// How many buffers a part has.
pub fn buffer_count(part: &Part, kinds: &[Kind]) -> usize
    requires kinds { kinds.now ≡ kinds_of (plain_part part.now) }
    requires short { IsShort (plain_part part.now) }
    ensures count { result ≡ buffer_count (plain_part part.now) }
    ensures few { result ≤ 81 }
{
    made_by_all(part.queries.as_slice()) + own_buffers(part, kinds) + part.packs.len()
}

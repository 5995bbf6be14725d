//! Where the columns of a part stand in its packs.
ghost use Rattle.std.specs.Prelude.{◌≡◌, map};
ghost use Rattle.std.specs.List.{list_any, position_or_len, position};
ghost use Rattle.us_format.specs.Declaration.{same_column};
ghost use Rattle.us_format.specs.Packs.{in_pack};
ghost use Rattle.us_judge.specs.Views.{column_of, plain_part};

use us_decl::{Column, Pack, Part};

fn is_same(a: Column, b: Column) -> bool
    ensures { result ≡ same_column (column_of a) (column_of b) }
{
    match (a, b) {
        (Column::Level(k), Column::Level(l)) => k == l,
        (Column::Val, Column::Val) => true,
        _ => false,
    }
}

fn has_column(pack: &Pack, column: Column) -> bool
    ensures { result ≡ list_any (λ b. same_column (column_of column) (column_of b)) pack.now }
{
    pack.as_slice().iter().any(|other| is_same(column, *other))
}

fn first_with(packs: &[Pack], column: Column) -> Option<usize>
    ensures { result ≡ position (λ pack. list_any (λ b. same_column (column_of column) (column_of b)) pack) packs.now }
{
    packs.iter().position(|pack| has_column(pack, column))
}

/// The number of the first pack of a part that has a column.
pub(crate) fn pack_with(part: &Part, column: Column) -> Option<usize>
    ensures { result ≡ position (in_pack (column_of column)) (plain_part part.now).packs }
{
    first_with(part.packs.as_slice(), column)
}

fn first_same(columns: &[Column], column: Column) -> Option<usize>
    ensures { result ≡ position (λ b. same_column (column_of column) (column_of b)) columns.now }
{
    columns.iter().position(|other| is_same(column, *other))
}

/// The place of a column in a pack, or the pack's length where it isn't there.
pub(crate) fn column_in(pack: &Pack, column: Column) -> usize
    ensures { result ≡ position_or_len (same_column (column_of column)) (map column_of pack.now) }
{
    first_same(pack.as_slice(), column).unwrap_or(pack.len())
}

//! Cells of buffers by their places.
ghost use Rattle.std.specs.Prelude.{◌≡◌, length};
ghost use Rattle.us_format.specs.Lists.{nth, cell};
ghost use Rattle.us_climb.specs.Layout.{IsInside, cells_at};

use crate::layout::ColumnPlace;
use us_matrix::Buffers;

/// The cells of the list with this number; none where there is no such list.
pub fn list_at(buffers: &Buffers, number: usize) -> &[i64]
    ensures { result.now ≡ nth buffers.now number }
{
    if number < buffers.count() {
        buffers.list(number)
    } else {
        &[]
    }
}

/// The cell with this number, or 0.
pub fn cell_of(cells: &[i64], x: usize) -> i64
    ensures { result ≡ cell cells.now x }
{
    cells.get(x).copied().unwrap_or(0)
}

/// How many cells a column has.
pub fn column_len(place: &ColumnPlace, buffers: &Buffers) -> usize
    requires { IsInside place.now }
    ensures { result ≡ length (cells_at place.now buffers.now) }
{
    list_at(buffers, place.buffer).len() / place.columns
}

/// The cell of a column with this number, or 0.
pub fn column_cell(place: &ColumnPlace, buffers: &Buffers, x: usize) -> i64
    requires { IsInside place.now }
    ensures { result ≡ cell (cells_at place.now buffers.now) x }
{
    let cells = list_at(buffers, place.buffer);
    if x >= cells.len() / place.columns {
        return 0;
    }
    cell_of(cells, x * place.columns + place.column)
}

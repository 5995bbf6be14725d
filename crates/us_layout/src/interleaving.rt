//! Columns in one list, row by row.
ghost use Rattle.std.specs.Prelude.{◌≡◌, ◌<◌, ◌%◌, ◌++◌, All, IfOk, OnOk, length, map};
ghost use Rattle.std.specs.List.{range_with_len};
ghost use Rattle.us_format.specs.Lists.{nth, cell};
ghost use Rattle.us_format.specs.Packs.{column_from};
ghost use Rattle.us_layout.specs.Interleaving.{HaveOneLength, InterleavingIsUndone, interleaved_cells};

use std::alloc::{AllocError, Global};
use us_matrix::Buffers;

/// Cell x of a column.
fn cell_of(column: &[i64], x: usize) -> i64
    requires { x < length column.now }
    ensures { result ≡ cell column.now x }
{
    column[x]
}

/// Adds cell x of each column, in the order of the columns.
fn push_row(cells: &mut Vec<i64>, columns: &[&[i64]], x: usize) -> Result<(), AllocError>
    requires { All (λ column. x < length column.now) columns.now }
    ensures { OnOk result (cells.new.items ≡ cells.old.items ++ map (λ column. cell column.now x) columns.now) }
{
    for column in columns {
        cells.push(cell_of(column, x))?;
    }
    Ok(())
}

/// How many cells the first column has.
fn row_count(columns: &[&[i64]]) -> usize
    ensures { result ≡ length (nth (map (λ column. column.now) columns.now) 0) }
{
    match columns {
        [] => 0,
        [first, ..] => first.len(),
    }
}

/// Columns of one length in one list.
pub fn interleave_slices(alloc: Global, columns: &[&[i64]]) -> Result<Vec<i64>, AllocError>
    requires { HaveOneLength (map (λ column. column.now) columns.now) }
    ensures { IfOk result (λ v. v.items ≡ interleaved_cells (map (λ column. column.now) columns.now)) }
{
    let rows = row_count(columns);
    let mut cells = Vec::with_capacity(alloc, rows.saturating_mul(columns.len()))?;
    for x in 0..rows {
        push_row(&mut cells, columns, x)?;
    }
    Ok(cells)
}

/// The columns, which have one length, in one list: cell x of column y of n columns goes to x * n + y. Fails only
/// where memory is wanting.
pub fn interleave(alloc: Global, columns: &Buffers) -> Result<Vec<i64>, AllocError>
    requires some { 0 < length columns.now }
    requires equal { HaveOneLength columns.now }
    ensures { IfOk result (λ v. v.items ≡ interleaved_cells columns.now) }
{
    let mut slices = Vec::with_capacity(alloc, columns.count())?;
    for y in 0..columns.count() {
        slices.push(columns.list(y))?;
    }
    interleave_slices(alloc, &slices)
}

/// Column y of interleaved columns.
fn column(alloc: Global, cells: &[i64], columns: usize, y: usize) -> Result<Vec<i64>, AllocError>
    requires { y < columns }
    ensures { IfOk result (λ v. v.items ≡ column_from columns y cells.now) }
{
    let rows = cells.len() / columns;
    let mut column = Vec::with_capacity(alloc, rows)?;
    for x in 0..rows {
        column.push(cells[x * columns + y])?;
    }
    Ok(column)
}

/// The given number of columns of interleaved cells, whose number is a multiple of it: column y of n columns has the
/// cells at x * n + y. Fails only where memory is wanting.
pub fn separate(alloc: Global, cells: &[i64], columns: usize) -> Result<Buffers, AllocError>
    requires some { 0 < columns }
    requires whole { length cells.now % columns ≡ 0 }
    ensures { IfOk result (λ b. b ≡ map (λ y. column_from columns y cells.now) (range_with_len 0 columns)) }
{
    let mut separated = Buffers::new(alloc);
    for y in 0..columns {
        separated.push(column(alloc, cells, columns, y)?)?;
    }
    Ok(separated)
}

/// Columns of one length that are interleaved come apart as they were, and cells that are taken apart are interleaved
/// as they were.
pub fn interleaving_is_undone()
    ensures { InterleavingIsUndone }
{}

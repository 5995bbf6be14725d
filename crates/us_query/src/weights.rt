// How many entries each row or column has.
ghost use Rattle.std.specs.Prelude.{◌≡◌, ◌^◌, ◌<◌, All, IfOk, length, map, sum};
ghost use Rattle.std.specs.List.{range_with_len};
ghost use Rattle.std.proofs.Common.{replicate};
ghost use Rattle.us_format.specs.Matrix.{index_at, indices};
ghost use Rattle.us_format.specs.Program.{entries_in, plain_entries, plain_entry, plain_shape, shape_in};
ghost use Rattle.us_format.specs.Queries.{weight};

use std::alloc::{AllocError, Global};
use us_expr::Axis;
use us_matrix::{Matrix, Shape, Triple};

// The row or the column of an entry.
fn index_of(t: &Triple, axis: Axis) -> u32
    ensures { result ≡ index_at axis (plain_entry t.now) }
{
    match axis {
        Axis::Rows => t.i,
        Axis::Cols => t.j,
    }
}

// How many rows or columns there are.
fn indices(shape: Shape, axis: Axis) -> u32
    ensures { result ≡ indices axis (plain_shape shape) }
{
    match axis {
        Axis::Rows => shape.rows,
        Axis::Cols => shape.cols,
    }
}

// So many weights of 0.
pub fn zeros(alloc: Global, count: usize) -> Result<Vec<usize>, AllocError>
    ensures { IfOk result (λ v. v.items ≡ replicate count 0) }
{
    vec![in alloc; 0usize; count]
}

// How many of the entries each of the first so many indices has.
fn tally(
    alloc: Global,
    count: usize,
    entries: &[Triple],
    axis: Axis,
) -> Result<Vec<usize>, AllocError>
    requires { All (λ t. index_at axis (plain_entry t) < count) entries.now }
    ensures weights { IfOk result (λ ws. ws.items ≡ map (weight (plain_entries entries.now) axis) (range_with_len 0 count)) }
    ensures total { IfOk result (λ ws. sum ws.items ≡ length entries.now) }
{
    let mut weights = zeros(alloc, count)?;
    for t in entries {
        let a = index_of(t, axis) as usize;
        weights[a] += 1;
    }
    Ok(weights)
}

/// For each row, or each column, how many entries it has.
pub fn weights(alloc: Global, matrix: &Matrix, axis: Axis) -> Result<Vec<usize>, AllocError>
    ensures weights { IfOk result (λ ws. ws.items ≡ map (weight (entries_in matrix.now) axis) (range_with_len 0 (indices axis (shape_in matrix.now)))) }
    ensures total { IfOk result (λ ws. sum ws.items < 2 ^ 64) }
{
    let shape = matrix.shape();
    let entries = matrix.entries();
    tally(alloc, indices(shape, axis) as usize, entries, axis)
}

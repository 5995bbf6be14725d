//! The matrix of a seed.
ghost use Rattle.std.specs.Prelude.{◌≡◌, ℕ, All, IfOk};
ghost use Rattle.us_matrix.specs.Map.{IsSide, IsInShape, value_at};
ghost use Rattle.us_matrix.specs.Sums.{sum_at};
ghost use Rattle.us_sample.specs.Numbers.{triple_from, triples_of, sample_of};

use crate::numbers::next_number;
use std::alloc::{AllocError, Global};
use us_matrix::{Matrix, Shape, Triple};

/// The matrix of so many triples, each made of three of the numbers that follow a seed. Values at one coordinate are
/// added, and a coordinate whose sum is 0 has no entry. The work grows with the count, and with a sort of the triples.
///
/// # Errors
///
/// Want of memory alone.
pub fn sample(alloc: Global, seed: u64, shape: Shape, count: u32) -> Result<Matrix, AllocError>
    requires { IsSide shape.rows × IsSide shape.cols }
    ensures matrix { IfOk result (λ m. m ≡ sample_of seed shape.rows shape.cols count) }
    ensures values { IfOk result (λ m. (i j : ℕ) → value_at m.entries i j ≡ sum_at (triples_of seed shape.rows shape.cols count) i j) }
{
    let triples = triples_after(alloc, seed, shape, count)?;
    Ok(Matrix::from_triples(shape, triples))
}

// So many triples, of the numbers that follow a seed.
fn triples_after(
    alloc: Global,
    seed: u64,
    shape: Shape,
    count: u32,
) -> Result<Vec<Triple>, AllocError>
    requires { IsSide shape.rows × IsSide shape.cols }
    ensures triples { IfOk result (λ v. v.items ≡ triples_of seed shape.rows shape.cols count) }
    ensures inside { IfOk result (λ v. All (IsInShape shape.rows shape.cols) v.items) }
{
    let mut triples = Vec::with_capacity(alloc, count as usize)?;
    let mut last = seed;
    for t in 0..count {
        let row = next_number(last);
        let col = next_number(row);
        let value = next_number(col);
        triples.push(triple_in(shape, row, col, value))?;
        last = value;
    }
    Ok(triples)
}

// The triple of three numbers: a row and a column of the shape, and a value from -999 to 999.
fn triple_in(shape: Shape, row: u64, col: u64, value: u64) -> Triple
    requires { IsSide shape.rows × IsSide shape.cols }
    ensures { result ≡ triple_from shape.rows shape.cols row col value }
{
    Triple {
        i: (row % u64::from(shape.rows)) as u32,
        j: (col % u64::from(shape.cols)) as u32,
        v: (value % 1999) as i64 - 999,
    }
}

//! The matrix of the entries that were read back.
ghost use Rattle.std.specs.Prelude.{◌≡◌, None, All, FitsSigned, IfOk, map};
ghost use Rattle.std.specs.Int.{w64};
ghost use Rattle.us_matrix.specs.Map.{IsSide};
ghost use Rattle.us_format.specs.Program.{plain_shape, plain_entry, shape_in, entries_in};
ghost use Rattle.us_check.specs.Repeats.{IsFirstRepeat, IsInOrder, IsInside, found_entries};

use std::alloc::{AllocError, Global};
use us_climb::Found;
use us_matrix::{Matrix, Shape, Triple};

// The triple of an entry, without its position.
fn triple_of(found: &Found) -> Triple
    ensures is { result ≡ found.now.triple }
    ensures fits { FitsSigned w64 result.v }
{
    let Triple { i, j, v } = found.triple;
    Triple { i, j, v }
}

// The triples of the entries.
fn triples_of(alloc: Global, found: &[Found]) -> Result<Vec<Triple>, AllocError>
    ensures is { IfOk result (λ triples. triples.items ≡ map (λ f. f.triple) found.now) }
    ensures fits { IfOk result (λ triples. All (λ t. FitsSigned w64 t.v) triples.items) }
{
    let mut triples = Vec::new(alloc);
    for f in found {
        triples.push(triple_of(f))?;
    }
    Ok(triples)
}

/// The matrix of entries at different coordinates of the shape, none of which is 0.
pub fn matrix_of(alloc: Global, shape: Shape, found: &[Found]) -> Result<Matrix, AllocError>
    requires rows { IsSide shape.rows }
    requires cols { IsSide shape.cols }
    requires inside { All (λ f. IsInside (plain_shape shape) (plain_entry f.triple)) found.now }
    requires apart { IsFirstRepeat (found_entries found.now) None }
    ensures shape { IfOk result (λ m. shape_in m ≡ plain_shape shape) }
    ensures entries { IfOk result (λ m. IsInOrder (found_entries found.now) (entries_in m)) }
{
    let triples = triples_of(alloc, found)?;
    Ok(Matrix::from_triples(shape, triples))
}

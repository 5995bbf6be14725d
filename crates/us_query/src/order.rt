//! The rows or the columns of a matrix in the order that `reorder` gives them.
ghost use Rattle.std.specs.Prelude.{◌≡◌, ◌<◌, ◌≤◌, ◌^◌, IfOk, length, map};
ghost use Rattle.std.specs.List.{range_with_len};
ghost use Rattle.std.specs.List.Sorted.{IsPermutation, IsSortedBy};
ghost use Rattle.std.specs.Ordering.{is_lt};
ghost use Rattle.us_format.specs.Matrix.{indices};
ghost use Rattle.us_format.specs.Program.{entries_in, shape_in};
ghost use Rattle.us_format.specs.Queries.{order_cell};
ghost use Rattle.us_query.specs.Ranked.{AreRanked, goes_before, ranked_at};

use crate::weights::weights;
use std::alloc::{AllocError, Global};
use std::cmp::Ordering;
use us_expr::Axis;
use us_matrix::Matrix;

// A row or a column, and how many entries it has.
#[derive(Clone, Copy)]
struct Weighted {
    weight: usize,
    index: u32,
}

// Which of two comes first: the one with more entries, of two with as many the one with the lower number.
fn compare(a: &Weighted, b: &Weighted) -> Ordering
    ensures { is_lt result ≡ goes_before a.now b.now }
{
    b.weight.cmp(&a.weight).then(a.index.cmp(&b.index))
}

// Sorts by falling number of entries.
fn sort(weighted: &mut [Weighted])
    ensures permutation { IsPermutation weighted.old weighted.new }
    ensures sorted { IsSortedBy goes_before weighted.new }
{
    weighted.sort_unstable_by(|a, b| compare(a, b));
}

// Each index with its weight.
fn with_weights(alloc: Global, weights: &[usize]) -> Result<Vec<Weighted>, AllocError>
    requires { length weights.now < 2 ^ 32 }
    ensures { IfOk result (λ rs. rs.items ≡ map (ranked_at weights.now) (range_with_len 0 (length weights.now))) }
{
    let mut made = Vec::new(alloc);
    for (index, weight) in weights.iter().enumerate() {
        made.push(Weighted {
            weight: *weight,
            index: index as u32,
        })?;
    }
    Ok(made)
}

// The indices in their order.
fn indices_of(alloc: Global, weighted: &[Weighted]) -> Result<Vec<u32>, AllocError>
    ensures { IfOk result (λ ns. ns.items ≡ map (λ r. r.index) weighted.now) }
{
    let mut indices = Vec::new(alloc);
    for r in weighted {
        indices.push(r.index)?;
    }
    Ok(indices)
}

/// The rows, or the columns, by falling number of entries; of those with as many entries the lower number comes first.
/// Fails only where memory is wanting.
pub fn reorder(alloc: Global, matrix: &Matrix, axis: Axis) -> Result<Vec<u32>, AllocError>
    requires { indices axis (shape_in matrix.now) ≤ 67108864 }
    ensures order { IfOk result (λ ns. ns.items ≡ map (order_cell (entries_in matrix.now) (shape_in matrix.now) axis) (range_with_len 0 (indices axis (shape_in matrix.now)))) }
    ensures ranks { IfOk result (λ ns. AreRanked (entries_in matrix.now) (shape_in matrix.now) axis ns.items) }
{
    let weights = weights(alloc, matrix, axis)?;
    let mut weighted = with_weights(alloc, &weights)?;
    sort(&mut weighted);
    indices_of(alloc, &weighted)
}

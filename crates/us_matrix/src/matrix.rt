// The matrix, made from triples in any order.
ghost use Rattle.std.specs.Prelude.{◌≡◌, ◌<◌, ◌≤◌, ◌+◌, ◌*◌, ◌^◌, ℕ, All, IfOk, length, slice_index_or};
ghost use Rattle.us_matrix.specs.Map.{IsSide, IsMatrix, IsInShape, IsRisingFrom, place, value_at, matrix_of};
ghost use Rattle.us_matrix.specs.Sums.{sum_at};
ghost use Rattle.us_matrix.specs.declared.matrix.Triple.{Triple};

use crate::Shape;
use crate::merging::merge_sorted;
use std::alloc::{AllocError, Global};
use std::marker::Model;

/// A value at a row and a column, both numbered from 0.
#[derive(Clone, Copy, Debug, PartialEq, Eq)]
pub struct Triple {
    pub i: u32,
    pub j: u32,
    pub v: i64,
}

/// A shape, and the entries: row-major, no two at one coordinate, in the shape and not 0.
#[derive(Drop)]
pub struct Matrix {
    shape: Shape,
    entries: Vec<Triple>,
}

impl Model for Matrix {
    ghost use Rattle.us_matrix.specs.Map.{Map, IsMatrix};

    ghost Value = { Map };

    ghost view = { λ m. record { rows = m.shape.rows; cols = m.shape.cols; entries = m.entries.items } };

    ghost invariant = { λ m. IsMatrix (record { rows = m.shape.rows; cols = m.shape.cols; entries = m.entries.items }) };
}

impl Matrix {
    /// The matrix of the triples. At each coordinate it has the sum of the values there modulo 2^64, shown signed;
    /// a coordinate whose sum is 0 has no entry. It sorts and adds in place and takes no memory.
    pub fn from_triples(shape: Shape, triples: Vec<Triple>) -> Matrix
        requires shape { IsSide shape.rows × IsSide shape.cols }
        requires inside { All (IsInShape shape.rows shape.cols) triples.items }
        ensures matrix { result ≡ matrix_of shape.rows shape.cols triples.items }
        ensures values { (i j : ℕ) → value_at result.entries i j ≡ sum_at triples.items i j }
    {
        let mut entries = triples;
        entries.sort_unstable_by_key(|t| place_of(t));
        let count = merge_sorted(&mut entries, shape);
        entries.truncate(count);
        Matrix { shape, entries }
    }

    /// The rows and columns.
    pub fn shape(&self) -> Shape
        ensures value { (result.rows ≡ self.now.rows) × (result.cols ≡ self.now.cols) }
        ensures matrix { IsMatrix self.now }
    {
        self.shape
    }

    /// The value at a row and a column, 0 where there is no entry.
    pub fn get(&self, i: u32, j: u32) -> i64
        ensures { result ≡ value_at self.now.entries i j }
    {
        if j >= self.shape.cols {
            return 0;
        }
        value_in(&self.entries, i, j)
    }

    /// The entries in row-major order.
    pub fn entries(&self) -> &[Triple]
        ensures value { result.now ≡ self.now.entries }
        ensures matrix { IsMatrix self.now }
    {
        &self.entries
    }

    /// An equal matrix.
    pub fn copy(&self, alloc: Global) -> Result<Matrix, AllocError>
        ensures { IfOk result (λ m. m ≡ self.now) }
    {
        let entries = Vec::from_slice(alloc, &self.entries)?;
        Ok(Matrix {
            shape: self.shape,
            entries,
        })
    }
}

// The place of a coordinate in a row-major walk through rows of 2^31 columns each.
fn place_of(t: &Triple) -> u64
    ensures { result ≡ place t.now }
{
    2147483648 * u64::from(t.i) + u64::from(t.j)
}

// The value at a coordinate of entries in row-major order.
fn value_in(entries: &[Triple], i: u32, j: u32) -> i64
    requires rising { IsRisingFrom 0 entries.now }
    requires narrow { All (λ t. t.j < 2 ^ 31) entries.now }
    requires col { j < 2 ^ 31 }
    ensures { result ≡ value_at entries.now i j }
{
    let wanted = 2147483648 * u64::from(i) + u64::from(j);
    value_from(&entries[first_from(entries, wanted)..], i, j)
}

// How many entries stand before a place.
fn first_from(entries: &[Triple], wanted: u64) -> usize
    requires { IsRisingFrom 0 entries.now }
    ensures bound { result ≤ length entries.now }
    ensures before { (k : ℕ) (d : Triple) → k < result → place (slice_index_or entries.now k d) < wanted }
    ensures behind { (k : ℕ) (d : Triple) → result ≤ k → k < length entries.now → wanted ≤ place (slice_index_or entries.now k d) }
{
    entries.partition_point(|t| place_of(t) < wanted)
}

// The value at a coordinate of entries that stand at its place or behind it.
fn value_from(entries: &[Triple], i: u32, j: u32) -> i64
    requires { IsRisingFrom (2147483648 * i + j) entries.now }
    ensures { result ≡ value_at entries.now i j }
{
    match entries {
        [t, ..] if t.i == i && t.j == j => t.v,
        _ => 0,
    }
}

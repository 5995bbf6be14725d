//! Matrices of whole numbers: sparse ones, a shape and the entries in row-major order, and dense ones.
#![tactic(auto)]

mod buffers;
mod dense;
mod laws;
mod matrix;
mod merging;
mod shape;

pub use buffers::Buffers;
pub use dense::Dense;
pub use laws::{one_matrix, values_are_sums};
pub use matrix::{Matrix, Triple};
pub use shape::Shape;

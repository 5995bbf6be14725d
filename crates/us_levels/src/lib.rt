//! The buffers of a matrix in a format: their size, the plain builder, and the first difference of given buffers from them.
//!
//! What all of these mean stands in `us_format`; this crate says it of formats and matrices of the program.
#![tactic(auto)]

mod building;
mod comparing;
mod counting;
mod differing;

pub use building::{build_plain, size_of};
pub use differing::{Difference, differs};
pub use us_build::BuildFault;

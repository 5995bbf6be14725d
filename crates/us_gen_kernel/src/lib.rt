//! The loops that multiply the matrix of a format's buffers by a dense operand.
//!
//! Each law is what a function without code ensures. Proofs cite them from `proofs/`.
#![tactic(auto)]

mod laws;
mod multiplying;
mod openings;

pub use laws::{format_is_multiplied, kernel_is_typed};
pub use multiplying::accumulate;

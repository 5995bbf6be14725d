//! Bounds on the steps of right programs and right kernels: a u64 holds them.
//!
//! Each law is what a function without code ensures. Proofs cite them from `proofs/`.
#![tactic(auto)]

mod laws;

pub use laws::{kernels_take_few_steps, programs_take_few_steps};

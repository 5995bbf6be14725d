//! Which programs are right for two formats and a shape, and how pieces of code make one.
//!
//! Each law is what a function without code ensures. Proofs cite them from `proofs/`.
#![tactic(auto)]

mod laws;

pub use laws::{all_parts_are_right, listing_starts, parts_add};

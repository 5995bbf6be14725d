//! The phase that makes dims of the extents of a part's queries.
//!
//! Each law is what a function without code ensures. Proofs cite them from `proofs/`.
#![tactic(auto)]

mod laws;
mod phase;

pub use laws::{extents_read, extents_typed};
pub use phase::extents_phase;

//! Loops that list the entries of all parts of a container in columns.
//!
//! Each law is what a function without code ensures. Proofs cite them from `proofs/`.
#![tactic(auto)]

mod laws;
mod listing;

pub use laws::{listing_is_typed, listing_lists};
pub use listing::{PartWalk, listing_phase};

//! The phase that makes a column of the coordinates of each level of a part.
//!
//! Each law is what a function without code ensures. Proofs cite them from `proofs/`.
#![tactic(auto)]

mod laws;
mod phase;

pub use laws::{coordinates_held, coordinates_lead, coordinates_typed};
pub use phase::{coordinate_columns, coordinates_phase};

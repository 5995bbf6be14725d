//! Straight-line code that gives the steps of a recovery plan their values, around a block that uses them.
//!
//! Each law is what a function without code ensures. Proofs cite them from `proofs/`.
#![tactic(auto)]

mod laws;
mod places;
mod straight;

pub use laws::{ranges_reach, recovery_fits, recovery_gives, walked_values_fit};
pub use places::{Coordinate, Table};
pub use straight::{names_in, recover, term_at};

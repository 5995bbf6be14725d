//! The phases that list the entries of a format keep the limits of a program's text, and sort nothing.
//!
//! Each law is what a function without code ensures. Proofs cite them from `proofs/`.
#![tactic(auto)]

mod laws;

pub use laws::{plans_fit, plans_read_twice, unpacking_keeps_limits};

//! Phases that count queries and select entries keep the limits of a program's text.
//!
//! Each law is what a function without code ensures. Proofs cite them from `proofs/`.
#![tactic(auto)]

mod laws;

pub use laws::{count_phases_keep_limits, select_phases_keep_limits};

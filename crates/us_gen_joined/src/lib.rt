//! What lists the entries of a format, joined to what counts queries over them and selects among them.
//!
//! Each law is what a function without code ensures. Proofs cite them from `proofs/`.
#![tactic(auto)]

mod laws;

pub use laws::{listed_are_given, unpacked_is_listed};

//! The loops that list the entries of a format's buffers in columns.
//!
//! Each law is what a function without code ensures. Proofs cite them from `proofs/`.
#![tactic(auto)]

mod laws;
mod openings;
mod unpacking;

pub use laws::{format_is_listed, format_is_typed};
pub use unpacking::unpack;

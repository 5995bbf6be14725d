//! Laws of the limits of a program's text: what templates of loop code keep, and that no block of theirs sorts.
//!
//! Each law is what a function without code ensures. Proofs cite them from `proofs/`.
#![tactic(auto)]

mod laws;

pub use laws::{
    blocks_keep_limits, nests_keep_limits, phases_keep_limits, terms_keep_limits,
    without_order_in_sequence,
};

//! Phases that build the buffers of a part keep the limits of a program's text, and sort nothing where they have no keys.
//!
//! Each law is what a function without code ensures. Proofs cite them from `proofs/`.
#![tactic(auto)]

mod laws;

pub use laws::{
    buildings_keep_limits, coordinates_keep_limits, extents_keep_limits, keys_of_levels_fit,
    packings_keep_limits, phases_sort_nothing,
};

//! What generators of loop code share: lists of phases that compose with their costs, and nests of levels.
//!
//! Each law is what a function without code ensures. Proofs cite them from `proofs/`.
#![tactic(auto)]

mod entries;
mod laws;
mod nests;

pub use entries::append_entry;
pub use laws::{
    appends, appends_typed, dim_lines_add_dims, holds_more, nests_place, nests_typed, nests_visit,
    new_lines_make_zeros, phases_compose,
};
pub use nests::{Level, nest};

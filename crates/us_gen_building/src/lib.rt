//! The phases that build the buffers of a part from columns of its entries.
//!
//! A part is described as its loops take it, level by level. The first phase orders the entries, counts nodes, and gives the
//! numbers of positions as dims; the second makes the buffers and fills them in one loop over the entries.
//!
//! Each law is what a function without code ensures. Proofs cite them from `proofs/`.
#![tactic(auto)]

mod keys;
mod laws;
mod levels;
mod part;
mod phases;

pub use keys::order_keys;
pub use laws::{
    building_builds, buildings_leave, buildings_typed, counting_counts, entries_are_built,
    entries_are_rows, keys_are_enough, phases_build, shares_are_small,
};
pub use levels::{are_last, built_level, built_values, deeper, in_front};
pub use part::{Descent, PartLevel, PartLoops};
pub use phases::{
    all_columns, buffers_of, build_phases, built_buffers, counting_phase, first_column, order_of,
    top_of,
};

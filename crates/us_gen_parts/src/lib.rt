//! The parts of a format, as loops over their positions want them.
//!
//! Each law is what a function without code ensures. Proofs cite them from `proofs/`.
#![tactic(auto)]

mod columns;
mod laws;
mod levels;
mod packs;
mod places;
mod queries;
mod walks;

pub use laws::{accepted_is_orderly, walks_are_few, walks_are_seen, walks_list};
pub use places::places_of;
pub use walks::{dim_count, part_walks};

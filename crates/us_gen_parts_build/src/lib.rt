//! The phases that build the buffers of a part of a format.
//!
//! From the columns that counting a part's queries leaves, and from the buffers of its extents and tables, they make columns
//! of coordinates, and build all buffers of the part: its levels, its values and its packs.
//!
//! Each law is what a function without code ensures. Proofs cite them from `proofs/`.
#![tactic(auto)]

mod building;
mod laws;
mod levels;
mod loops;
mod packs;
mod queries;

pub use building::{build, build_sorted};
pub use laws::counted_is_given;

//! The phase in front of the one that lists entries: dims for the extents, for the numbers of nodes, and for the number
//! of entries of all parts.
//!
//! Each law is what a function without code ensures. Proofs cite them from `proofs/`.
#![tactic(auto)]

mod counting;
mod laws;
mod lines;
mod parts;
mod phase;

pub use laws::{
    opening_is_typed, opening_opens, opening_tells, openings_stand, openings_tell, unpack_is_typed,
    unpack_lists,
};
pub use parts::{Extent, Opening, opening_of};
pub use phase::opening_phase;

//! Loops over the positions of a part, around a block that is done for each entry.
//!
//! Each law is what a function without code ensures. Proofs cite them from `proofs/`.
#![tactic(auto)]

mod laws;
mod levels;
mod places;
mod walking;

pub use laws::{entries_have_ranks, plans_recover, walk_lists, walk_typed};
pub use places::{Column, Loop, Places, Slot};
pub use walking::{EntryTerms, end_of_walk, inside, walk};

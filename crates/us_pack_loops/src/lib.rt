//! The building block on the rows of a part with packs: what it leaves are all buffers of the part's levels, values and packs.
//!
//! The definitions stand in `specs/`: when packs of the loop stand for packs of a format (`Standing`), and which buffer
//! keeps what (`Names`). The functions of this crate have no code: the contract of each is a law.
#![tactic(auto)]

mod laws;

pub use laws::{packed_blocks_build_parts, packed_needs_are_met};

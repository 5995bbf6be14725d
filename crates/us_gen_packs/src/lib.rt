//! Packs: buffers that interleave columns, filled by the loop that builds the buffers of levels.
//!
//! Each law is what a function without code ensures. Proofs cite them from `proofs/`.
#![tactic(auto)]

mod laws;
mod loops;
mod makes;
mod packs;

pub use laws::{
    pack_makes_typed, packed_blocks_build, packed_blocks_typed, packs_are_zero, packs_take_entries,
};
pub use loops::{packed_block, packed_loop};
pub use makes::{new_packs, pack_line};
pub use packs::{PackWriter, Terms, last_position, write_packs};

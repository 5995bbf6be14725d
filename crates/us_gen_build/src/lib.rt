//! Loops over entries in order that build the buffers of a part.
//!
//! Each law is what a function without code ensures. Proofs cite them from `proofs/`.
#![tactic(auto)]

mod laws;
mod levels;
mod loops;
mod makes;
mod orders;

pub use laws::{
    blocks_build, blocks_typed, buffers_are_zero, buffers_fill_up, levels_open,
    levels_take_entries, loops_take_entries, makes_typed, orders_sort,
};
pub use levels::{BuildLevel, Role, each_level, open_levels};
pub use loops::{build_block, close_levels, entry_loop, fill_up, turns_over};
pub use makes::new_buffers;
pub use orders::order_block;

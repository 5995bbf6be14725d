//! What loops rest on that go down the levels of a format: they visit all positions in order, while the meaning of
//! buffers is said by a climb from the last position up.
//!
//! The definitions stand in `specs/`. The functions of this crate have no code: the contract of each is a law, for every
//! lawful part and every matrix of the shape.
#![tactic(auto)]

mod laws;

pub use laws::{
    entries_are_recovered, entries_have_one_way, levels_split_at_the_last_node_level,
    numbers_stay_small, parts_share_entries, positions_follow_coordinates, slots_keep_positions,
    starts_count_nodes, tight_parts_are_filled,
};

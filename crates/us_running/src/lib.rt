//! What a loop counts and writes that takes entries one after the other: running numbers, marks and cells, as functions of
//! how many entries it has taken.
//!
//! The definitions stand in `specs/`. The functions of this crate have no code: the contract of each is a law of plain
//! numbers, which loops that build buffers rest on.
#![tactic(auto)]

mod laws;

pub use laws::{
    all_are_numbered, cells_are_set, cells_follow_entries, marks_are_written, marks_fill_up,
    numbers_are_small,
};

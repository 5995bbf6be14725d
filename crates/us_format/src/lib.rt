//! What a declared sparse format means: which expressions are known, the kinds of levels, the positions of entries,
//! the buffers of a matrix, their meaning and their size.
//!
//! The definitions stand in `specs/`, over the row-major list of entries and plain data for declarations. The functions
//! of this crate have no code: the contract of each is a law of the definitions.
#![tactic(auto)]

mod laws;

pub use laws::{
    buffers_are_counted, buffers_fit, buffers_mean_matrix, known_is_least, meaning_is_matrix,
    one_matrix_by_buffers, packing_keeps_size, plan_recovers, positions_ascend, size_adds_lengths,
    size_is_of_buffers, worked_rows,
};

/// What a level of a format keeps.
#[derive(Clone, Copy, Debug, PartialEq, Eq)]
pub enum Kind {
    /// A position for each coordinate below each position; no buffer.
    Full,
    /// A position for each different pair of a position and a coordinate.
    Compressed,
    /// A position for each entry.
    Listed,
    /// One coordinate for each position; no new positions.
    Slot,
}

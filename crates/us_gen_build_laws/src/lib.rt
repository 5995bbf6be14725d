//! What a loop that numbers entries by running counters leaves in its buffers: the positions and the buffers of the format.
//!
//! The definitions stand in `specs/`: how a loop takes the levels (`Numbering`), in which orders it may take the entries
//! (`Ready`), what it writes (`Built`). The functions of this crate have no code: the contract of each is a law.
#![tactic(auto)]

mod laws;

pub use laws::{
    buffers_are_built, pieces_are_built, positions_are_numbered, running_numbers_are_ranks,
    sorted_rows_are_ready,
};

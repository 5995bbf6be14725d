//! What a script does to a matrix: the matrix behind its steps, and the script that takes them back.
//!
//! The sets that aren't undone are sorted once by their coordinates and merged with the entries. What a script means stands in
//! `specs/Edits.antt`.
#![tactic(auto)]

mod changing;
mod keeping;
mod laws;
mod merging;
mod sorting;

pub use changing::{ChangedMatrix, changes, matrix_after};
pub use laws::inverse_takes_back;

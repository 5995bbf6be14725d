//! The command `generate`: the matrix of a seed goes through a chain of formats.
#![tactic(auto)]

mod generating;

pub use generating::generate;

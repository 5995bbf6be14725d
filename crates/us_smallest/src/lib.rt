//! The commands `advise` and `blocks`: the sizes of a matrix in formats, and the smallest of these.
#![tactic(auto)]

mod blocking;
mod comparing;
mod sides;
mod table;

pub use blocking::blocks;
pub use comparing::advise;

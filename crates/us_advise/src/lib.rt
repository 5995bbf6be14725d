//! Which of some formats is the smallest for a matrix: the exact size of each, and the first of the least.
//!
//! No buffers are made. Sizes are those of `us_levels`, and the least stands in `specs/Least.antt`.
#![tactic(auto)]

mod advising;
mod blocking;
mod choosing;

pub use advising::{Advice, SizeList, advise, blocks};
pub use blocking::block;

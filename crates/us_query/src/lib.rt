//! Counts of the entries of a matrix, which define the variables of a format.
#![tactic(auto)]

mod counting;
mod lanes;
mod numbers;
mod order;
mod values;
mod weights;

pub use lanes::{LaneTable, schedule};
pub use numbers::{enumerate, enumerate_extent, sums};
pub use order::reorder;

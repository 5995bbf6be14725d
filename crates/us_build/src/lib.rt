//! The plain builder of a part's buffers: it sorts the entries by their coordinates once, and goes down level by level.
#![tactic(auto)]

mod cells;
mod fault;
mod items;
mod levels;
mod passes;
mod pieces;
mod ranges;
mod rows;
mod steps;
mod walk;

pub use cells::{push_level, values};
pub use fault::BuildFault;
pub use items::Item;
pub use levels::Level;
pub use passes::{LIMIT, measure, write};
pub use pieces::{build_pieces, size_of_pieces};
pub use ranges::indices;
pub use rows::Rows;
pub use steps::go_down;
pub use walk::Walk;

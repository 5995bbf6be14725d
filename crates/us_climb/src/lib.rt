//! Reading buffers back: whether their lengths fit a format, the coordinate of a position, and all entries.
//!
//! Where the pieces of a part stand among its buffers is found once, as a layout; what is read is read by it.
#![tactic(auto)]

mod cells;
mod climbing;
mod coordinates;
mod extents;
mod found;
mod layout;
mod lengths;
mod packs;
mod parents;
mod queries;
mod reader;
mod reading;

pub use coordinates::climb;
pub use found::{Found, Position, ReadEntries};
pub use lengths::{is_within_limit, misfit};
pub use reading::read_entries;

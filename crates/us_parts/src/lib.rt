//! The size and the buffers of one part on its entries: the extents and tables of its queries, its levels, values and packs.
#![tactic(auto)]

mod building;
mod queries;

pub use building::{build_part, size_of_part, variables_of};
pub use queries::{push_extents, push_tables};
pub use us_build::{BuildFault, LIMIT};

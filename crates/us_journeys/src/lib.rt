//! The way of a matrix from format to format: what a conversion stores, prints and lists.
#![tactic(auto)]

mod conversion;
mod journey;
mod read_back;

pub use conversion::{container, convert_held, make};
pub use journey::{Converted, Journey, go_along};

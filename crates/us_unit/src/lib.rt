//! Units: a target declaration, and behind it a program of loop code that makes the target's buffers.
#![tactic(auto)]

mod listing;
mod names;
mod printing;
mod reading;
mod unit;

pub use listing::{listings_read_back, push_unit};
pub use names::program_is_named;
pub use printing::print_unit;
pub use reading::parse_unit;
pub use unit::OneUnit;

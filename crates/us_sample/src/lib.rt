//! Matrices that a seed gives, and the line that is printed of one.
#![tactic(auto)]

mod drawing;
mod numbers;
mod totals;

pub use drawing::sample;
pub use totals::{last_line, sum};

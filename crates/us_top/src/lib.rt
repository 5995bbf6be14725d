//! The commands of the program: their words, their answers and what they leave.
#![tactic(auto)]

mod canon;
mod check;
mod command;
mod compile;
mod convert;
mod info;
mod info_lines;
mod report;
mod result;
mod run_code;
mod running;
mod target;

pub use running::run;
pub use us_status::{Slot, Status};

//! The answers of commands, and how a command ends: what is stored and printed once all its steps have passed.
#![tactic(auto)]

mod ending;
mod line;
mod status;

pub use ending::{Store, finish};
pub use status::{Slot, Status};

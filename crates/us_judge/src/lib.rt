//! Which declarations are accepted: each has a first reason why it is not, or it is a format.
//!
//! The rules stand in `specs/Acceptance.antt`, over a declaration as plain data.
#![tactic(auto)]

mod buffers;
mod entry;
mod format;
mod head;
mod kinds;
mod laws;
mod level_ranges;
mod packs;
mod part;
mod plans;
mod refusal;
mod rules;
mod variables;

pub use buffers::{is_packed, own_of_level};
pub use entry::entry_format;
pub use format::{Format, judge};
pub use laws::{accepted_is_lawful, bounds_hold, worked_refusals};
pub use level_ranges::LevelBounds;
pub use refusal::{JudgeFault, Refusal};
pub use us_format::Kind;

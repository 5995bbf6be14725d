//! Which expressions some levels of a part make known.
//!
//! The sub-expressions of a part are kept in one table, each once, its operands by their numbers, so that expressions
//! are compared by numbers alone.
#![tactic(auto)]

mod known_set;
mod rules;
mod table;

pub use known_set::{KnownSet, known, table_of};
pub use table::{Node, find, number_of};

//! The text of loop code, read a token at a time, and its expressions.
#![tactic(auto)]

mod counting;
mod exprs;
mod meter;
mod reader;
mod stop;

pub use meter::Meter;
pub use reader::Reader;
pub use stop::Stop;

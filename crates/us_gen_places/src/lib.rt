//! Where the buffers of a format's part are among the sources of a program.
//!
//! Each law is what a function without code ensures. Proofs cite them from `proofs/`.
#![tactic(auto)]

mod laws;
mod levels;
mod start;

pub use laws::{buffers_are_of_parts, places_cover, places_hold};
pub use levels::LevelPlace;
pub use start::PartStart;

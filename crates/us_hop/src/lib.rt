//! Hops: a matrix that is held in one format goes to another through loops.
//!
//! The target's buffers are what a compiled program makes of the source's, and the program is handed out with them.
#![tactic(auto)]

mod arriving;
mod fault;
mod hopping;

pub use fault::HopFault;
pub use hopping::{Hopped, hop};

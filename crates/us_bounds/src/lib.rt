//! Which programs keep the rules of loop code, so that they stay in their buffers.
//!
//! `verify` takes a program and gives it back as `Verified`, or says which item is the first that breaks a rule. What is
//! visible at a place of the text stands in a table by name, so a program is gone through once.
#![tactic(auto)]

mod blocks;
mod fault;
mod giving;
mod kinds;
mod leaving;
mod names;
mod phases;
mod rules;
mod statements;
mod stop;
mod table;
mod terms;
mod verified;
mod verifying;

pub use fault::{Unbound, VerifyFault};
pub use verified::Verified;
pub use verifying::verify;

//! The machine: it runs verified programs of loop code.
//!
//! Each phase has one region, which holds the sources and all new buffers made so far, and whose layout is computed while
//! the program runs. A block is walked as it stands; registers, dims and buffers are found by their numbers in tables.
#![tactic(auto)]

mod budget;
mod growing;
mod lines;
mod makes;
mod names;
mod packing;
mod phases;
mod rooms;
mod running;
mod sorting;
mod starting;
mod steps;
mod stop;
mod tables;
mod terms;
mod walk;

pub use running::{Ran, run};
pub use stop::RunStop;

//! Containers: files that keep a matrix in a declared format.
//!
//! A container has the canonical text of its declaration, the shape, and the buffers, each number in eight bytes, the low
//! byte first. Only well-formed buffers are written, and only they are read.
#![tactic(auto)]

mod fault;
mod fields;
mod laws;
mod reading;
mod text;
mod writing;

pub use fault::ContainerFault;
pub use laws::{only_that_spelling, written_reads_back};
pub use reading::read_container;
pub use writing::write_container;

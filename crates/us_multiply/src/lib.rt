//! Products: a matrix that is held in a format is multiplied by a dense operand through loops.
//!
//! The product's cells are what a compiled program makes of the format's buffers and the operand, and the program is handed
//! out with them.
#![tactic(auto)]

mod fault;
mod multiplying;
mod running;

pub use fault::KernelFault;
pub use multiplying::{KernelRun, kernel};

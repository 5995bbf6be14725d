//! The compiler of kernels: programs that multiply the matrix of a format's buffers by a dense operand.
#![tactic(auto)]

mod compiling;

pub use compiling::compile_kernel;

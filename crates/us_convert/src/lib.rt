//! The compiler: programs that convert the buffers of one format to those of another.
#![tactic(auto)]

mod alike;
mod compiling;
mod draft;
mod parts;
mod sorted;

pub use compiling::compile;

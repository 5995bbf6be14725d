//! The text of loop code, read to programs: statements, blocks, phases and whole programs.
//!
//! Each part of the grammar has its function here. What the function promises speaks of the grammar's table alone.
#![tactic(auto)]

mod blocks;
pub mod laws;
mod lines;
mod parsed;
mod parsing;
mod phases;
mod rest;
mod statements;

pub use parsed::{CodeFault, OneProgram};
pub use parsing::parse_program;

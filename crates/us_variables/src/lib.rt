//! The variables of a part at the entries of its matrix, and the extents and the tables of its queries.
#![tactic(auto)]

mod columns;
mod queries;
mod tables;
mod variables;

pub use variables::Variables;

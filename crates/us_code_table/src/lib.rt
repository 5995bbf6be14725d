//! The language of loop code as a table: its tokens, its grammar with what each
//! choice makes, and its limits.
#![tactic(auto)]

pub mod laws;
mod lexeme;
pub mod mark;
pub mod note;

pub use lexeme::Lexeme;

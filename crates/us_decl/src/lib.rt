//! Declarations of formats: what a declaration is, its names and libraries, and the grammar of its text.
#![tactic(auto)]

mod column;
mod copying;
mod decl;
mod lexeme;
mod library;
mod mark;
mod name;

pub use column::Column;
pub use decl::{
    Body, Conds, Decl, Head, Levels, Names, Numbers, Pack, Packs, Part, Parts, Queries,
};
pub use lexeme::{Lexeme, is_same_name};
pub use library::Library;
pub use mark::Mark;
pub use name::{Name, name_of};

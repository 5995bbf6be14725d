//! Reading declarations of formats, with exact places of faults.
#![tactic(auto)]

mod declaration;
mod laws;
mod parsed;
mod parsing;
mod parts;
mod queries;
mod reading;
mod stop;
mod storage;
mod tokens;
mod word;

pub use laws::{answers_mean, library_answers_mean, one_declaration, one_library, pieces_spell};
pub use parsed::{DeclFault, OneDecl};
pub use parsing::{parse_library, parse_one};

//! The canonical text of loop code. Reading it gives the program back.
#![tactic(auto)]

mod blocks;
mod laws;
mod lines;
mod printing;
mod terms;
mod words;

pub use laws::{canonical_text_reads_back, canonical_texts_differ};
pub use printing::print_program;

//! The canonical text of a format declaration. Reading it gives the declaration back.
#![tactic(auto)]

mod laws;
mod printing;

pub use laws::{canonical_text_reads_back, canonical_texts_differ, parse_one_reads_back};
pub use printing::print_decl;

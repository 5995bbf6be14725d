//! Scripts that change a matrix: steps that set a value, undo a set, or ask for a size. They are read, and printed.
//!
//! What a script says stands in `specs/Reads.antt`, its text in `specs/Text.antt`.
#![tactic(auto)]

mod fault;
mod laws;
mod lines;
mod parsing;
mod printing;
mod reading;
mod script;
mod step;

pub use fault::ScriptFault;
pub use laws::texts_read_back;
pub use parsing::parse_script;
pub use printing::print_script;
pub use script::Script;
pub use step::Step;

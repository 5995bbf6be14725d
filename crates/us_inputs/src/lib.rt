//! What commands read: libraries, the formats of a chain, matrix files and containers.
#![tactic(auto)]

mod chain;
mod finding;
mod input;
mod matrix_file;
mod source;

pub use chain::{ends_in_text, is_chain, is_name};
pub use finding::{read_chain, read_formats};
pub use input::{Input, load_file, read_input, read_library};
pub use source::{hold, read_source};

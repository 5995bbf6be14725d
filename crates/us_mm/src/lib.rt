//! Matrix files of whole numbers: the reader, and the canonical texts.
#![tactic(auto)]

mod array_reader;
mod array_states;
mod array_writer;
mod arrays;
mod entries;
mod entry_states;
mod fault;
mod form;
mod head;
mod header;
mod laws;
mod listing;
mod pieces;
mod reader;
mod stage;
mod valuing;
mod writer;

pub use array_reader::{ArrayReader, read_array};
pub use array_writer::write_array;
pub use fault::MmFault;
pub use laws::{array_text_reads, text_reads};
pub use reader::{CoordinateReader, read_coordinate};
pub use us_mm_lines::{LineState, number_of};
pub use writer::write_coordinate;

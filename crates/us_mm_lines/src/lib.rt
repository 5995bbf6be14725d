//! The lines of a matrix file: their words, and the numbers that these write.
#![tactic(auto)]

mod line_state;
mod lines;
mod usual;
mod word_state;
mod words;

pub use line_state::LineState;
pub use lines::{is_skipped, without_return};
pub use usual::{UsualEntry, usual_entry};
pub use word_state::WordState;
pub use words::{next_word, number_of, signed, size_word, three_words, two_words, value_word};

//! Texts as tokens: blanks and comments, words, numbers up to a limit, and
//! symbols of one or two bytes, for any language that says which of them are
//! its tokens.
#![tactic(auto)]

mod bytes;
mod cursor;
mod front;
mod kind;
pub mod laws;
mod next;

pub use cursor::Cursor;
pub use kind::Kind;
pub use next::Next;

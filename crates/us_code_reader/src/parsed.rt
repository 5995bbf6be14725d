//! What parsing gives.

use us_code::Program;

/// A program, and the place right behind its closing brace.
#[derive(Drop)]
pub struct OneProgram {
    pub program: Program,
    pub end: usize,
}

/// The first fault of a text, at a place in bytes from its front.
#[derive(Clone, Copy, Debug, PartialEq, Eq)]
pub enum CodeFault {
    /// A byte that begins no token, blank or comment, or a word that the language doesn't have.
    Token { place: u64 },
    /// A token that can't go on with the text by the grammar; the length at the end.
    Form { place: u64 },
    /// A token beyond a limit.
    TooBig { place: u64 },
    /// No memory.
    Memory,
}

//! What parsing gives.

use us_decl::Decl;

/// A declaration, and the place right behind its closing brace.
#[derive(Debug, Drop)]
pub struct OneDecl {
    pub decl: Decl,
    pub end: usize,
}

/// The first fault of a text, at a place in bytes from its front.
#[derive(Clone, Copy, Debug, PartialEq, Eq)]
pub enum DeclFault {
    /// A byte that begins no token, blank or comment.
    Token { place: u64 },
    /// A token that can't go on with the text by the grammar; the length at the end.
    Form { place: u64 },
    /// A token beyond a limit.
    TooBig { place: u64 },
    /// The name of a declaration that an earlier one has.
    Repeated { place: u64 },
    /// No memory.
    Memory,
}

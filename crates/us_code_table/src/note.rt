//! What a token counts for the limits.

/// What a token counts for the limits, as the choice that it begins says.
#[derive(Clone, Copy, Debug, PartialEq, Eq)]
pub enum Note {
    /// Nothing.
    Free,
    /// It is how many sources a program has.
    SourceCount,
    /// It is one more name of a list.
    ListName,
    /// It begins a statement, a `new` line or a dim line.
    Item,
    /// It is one more node of an expression.
    Node,
}

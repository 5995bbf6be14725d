//! What is read at the positions of buffers.

use us_matrix::Triple;

/// A position after the last level of a part, both counted from 0.
#[derive(Clone, Copy, Debug, PartialEq, Eq)]
pub struct Position {
    /// The number of the part.
    pub part: usize,
    /// The position in the part.
    pub x: usize,
}

/// An entry, and the position at which its value stands.
#[derive(Clone, Copy, Debug, PartialEq, Eq)]
pub struct Found {
    /// The position.
    pub position: Position,
    /// The entry.
    pub triple: Triple,
}

/// The entries at the positions whose value isn't 0, in order, up to the first position that has no coordinate in the shape.
#[derive(Debug, Drop)]
pub struct ReadEntries {
    /// The entries.
    pub found: Vec<Found>,
    /// The first position that has no coordinate in the shape, if there is one.
    pub failed: Option<Position>,
}

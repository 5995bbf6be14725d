//! A part as its loops take it.

use us_code::Dim;
use us_format::Kind;

/// A level of a part.
#[derive(Clone, Copy, Debug, PartialEq, Eq)]
pub struct PartLevel {
    pub kind: Kind,
    /// How many coordinates there are.
    pub size: Dim,
    /// The buffer of the entries' coordinates, which count from 0.
    pub column: u32,
}

/// A part whose buffers are built, and the columns of its entries.
#[derive(Drop)]
pub struct PartLoops {
    /// The dim: how many entries there are.
    pub count: u32,
    /// The levels, the outermost first.
    pub levels: Vec<PartLevel>,
    /// The buffer of the entries' values.
    pub values: u32,
    /// How many first levels have the coordinates by which the entries are put in order. They are taken as they come where
    /// this is `None`.
    pub keys: Option<usize>,
}

/// A place on the way down the levels.
#[derive(Clone, Copy, Debug, PartialEq, Eq)]
pub struct Descent {
    /// Whether no level is above.
    pub is_top: bool,
    /// Whether the position of each entry is its rank.
    pub is_rank: bool,
    /// How many positions there are.
    pub above: Dim,
    /// The first of two dims of the level below: one more than the positions above, and the positions there.
    pub dims: u32,
    /// The first of four registers and two buffers of the level below.
    pub first: u32,
    /// The register of the coordinate of the level below.
    pub register: u32,
}

//! The columns of a pack.

/// A column of a pack: a level by its number, or the values.
#[derive(Clone, Copy, Debug, PartialEq, Eq)]
pub enum Column {
    /// The coordinates of the level with this number.
    Level(u32),
    /// The values.
    Val,
}

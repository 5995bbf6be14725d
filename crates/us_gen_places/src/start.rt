//! Where a part begins among sources and dims.

/// The number of the source that holds the first buffer of a part, and of the part's first dim. The dims are those of the
/// extents of its queries, 16 at most, and behind them two for each level.
#[derive(Clone, Copy, Debug, PartialEq, Eq)]
pub struct PartStart {
    /// The first source.
    pub source: u32,
    /// The first dim.
    pub dim: u32,
}

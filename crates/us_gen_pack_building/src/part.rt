//! A part with packs, as its loops take it.

use us_gen_building::PartLoops;

/// The columns of a pack: those from number `first` on that come before `end`. The column of coordinates of a level has the
/// level's number, and the column of values has the number of all levels.
#[derive(Clone, Copy, Debug, PartialEq, Eq)]
pub struct PackRun {
    pub first: u32,
    pub end: u32,
}

/// A part with packs whose buffers are built.
#[derive(Drop)]
pub struct PackedLoops {
    /// Its levels, and the columns of its entries.
    pub part: PartLoops,
    /// Its packs, in order.
    pub packs: Vec<PackRun>,
}

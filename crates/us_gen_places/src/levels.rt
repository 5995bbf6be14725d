//! The places of levels.

use us_gen_walk::{Loop, Slot};

/// The place of a level: in front of the slot levels, or a slot level.
#[derive(Clone, Copy, Debug, PartialEq, Eq)]
pub enum LevelPlace {
    /// A full, compressed or listed level.
    InFront(Loop),
    /// A slot level.
    Behind(Slot),
}

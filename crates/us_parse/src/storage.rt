//! How the levels of a part are stored.

use us_decl::{Numbers, Packs};

/// The trimmed and the merged levels of a part, and its packs.
#[derive(Debug, Drop)]
pub struct Storage {
    pub trim: Numbers,
    pub merge: Numbers,
    pub packs: Packs,
}

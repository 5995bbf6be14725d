//! Programs in the making.

use us_code::{Columns, Fresh, Numbers, Phases};

/// Phases that list the entries of a source in columns and build some parts of a target.
#[derive(Drop)]
pub(crate) struct Draft {
    /// The numbers that are left.
    pub(crate) fresh: Fresh,
    /// All entries.
    pub(crate) columns: Columns,
    pub(crate) phases: Phases,
    /// The buffers that are built, in order.
    pub(crate) give: Numbers,
}

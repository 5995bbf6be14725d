//! Small matrices as columns of their entries, from the last to the first.

use crate::machine::{are_lists, lists_of, sources_of};
use std::alloc::Global;

/// A shape, and the rows, the columns and the values of entries.
#[derive(Clone, Copy, Debug)]
pub struct Entries {
    pub rows: u32,
    pub cols: u32,
    pub columns: [&'static [i64]; 3],
}

/// Two entries in the first row and one in the last.
pub const SAMPLE: Entries = Entries {
    rows: 3,
    cols: 4,
    columns: [&[2, 0, 0], &[1, 2, 0], &[-7, 2, 5]],
};

/// Two rows have one entry each, and all columns have one.
pub const TIED: Entries = Entries {
    rows: 3,
    cols: 4,
    columns: [&[2, 1, 1, 0], &[1, 2, 0, 3], &[4, 3, 2, 1]],
};

/// No entries.
pub const EMPTY: Entries = Entries {
    rows: 3,
    cols: 4,
    columns: [&[], &[], &[]],
};

/// All cells of the second row.
pub const FULL_ROW: Entries = Entries {
    rows: 2,
    cols: 3,
    columns: [&[1, 1, 1], &[2, 1, 0], &[3, 2, 1]],
};

/// All cells of the first column.
pub const FULL_COLUMN: Entries = Entries {
    rows: 3,
    cols: 2,
    columns: [&[2, 1, 0], &[0, 0, 0], &[3, 2, 1]],
};

/// Whether the code of this text gives these lists from the columns of entries.
pub fn gives(alloc: Global, text: &[u8], entries: &Entries, wanted: &[&[i64]]) -> bool {
    match sources_of(alloc, &entries.columns) {
        Ok(sources) => match lists_of(alloc, text, &sources) {
            Some(lists) => are_lists(&lists, wanted),
            None => false,
        },
        Err(_) => false,
    }
}

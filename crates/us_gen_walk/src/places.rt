//! Where the buffers of a part are.

use us_code::Dim;
use us_gen_recover::Table;

/// Where the cells of a column are.
#[derive(Clone, Copy, Debug, PartialEq, Eq)]
pub enum Column {
    /// In a source of their own.
    Own { source: u32 },
    /// In column `digit` of a source that packs `width` columns.
    Packed { source: u32, width: u64, digit: u64 },
}

/// A level in front of the slot levels. The low end is that of the range of the level's expression.
#[derive(Clone, Copy, Debug, PartialEq, Eq)]
pub enum Loop {
    /// A full level: each coordinate below the size.
    Full {
        size: Dim,
        low: i64,
    },
    /// A compressed or listed level. `more` is one more than its nodes; where the coordinates have a source of their own,
    /// `nodes` is the length of this source.
    Nodes {
        pos: u32,
        more: Dim,
        nodes: Dim,
        crd: Column,
        low: i64,
    },
}

/// A slot level. The low end is that of the range of the level's expression.
#[derive(Clone, Copy, Debug, PartialEq, Eq)]
pub struct Slot {
    /// The coordinates.
    pub crd: Column,
    /// The low end.
    pub low: i64,
}

/// Where the buffers of a part are: the levels in front of the slot levels, the values, the slot levels, and the tables
/// of the queries.
#[derive(Debug, Drop)]
pub struct Places {
    /// The full, compressed and listed levels, in order.
    pub loops: Vec<Loop>,
    /// The values.
    pub values: Column,
    /// The slot levels, which come last.
    pub slots: Vec<Slot>,
    /// The table of each query.
    pub tables: Vec<Table>,
}

//! Queries, which define the variables of a part by counts of its entries, and the condition that splits a matrix.
ghost use Rattle.std.specs.Prelude.{◌≡◌, IfOk};

use crate::expression::Expr;
use std::alloc::{AllocError, Global};

/// One of the two indices of a matrix.
#[derive(Clone, Copy, Debug, PartialEq, Eq)]
pub enum Axis {
    /// The rows, numbered by `i`.
    Rows,
    /// The columns, numbered by `j`.
    Cols,
}

/// The definition of one variable, or of two, over the entries of a part.
#[derive(Debug, Drop)]
pub enum Query {
    /// How many entries have the entry's value of `arg`.
    Sum {
        var: u32,
        arg: Expr,
    },
    /// How many entries with the entry's value of `arg` come before it in row-major order.
    Enumerate {
        var: u32,
        arg: Expr,
    },
    /// The rank of the entry's row or column, by falling number of entries.
    Reorder {
        var: u32,
        arg: Expr,
    },
    /// The lane and the slot of the entry's row or column, spread evenly over the lanes.
    Schedule {
        lane: u32,
        slot: u32,
        arg: Expr,
        lanes: u32,
    },
}

impl Query {
    /// An equal query.
    pub fn copy(&self, alloc: Global) -> Result<Query, AllocError>
        ensures { IfOk result (λ q. q ≡ self.now) }
    {
        match self {
            Query::Sum { var, arg } => Ok(Query::Sum {
                var: *var,
                arg: arg.copy(alloc)?,
            }),
            Query::Enumerate { var, arg } => Ok(Query::Enumerate {
                var: *var,
                arg: arg.copy(alloc)?,
            }),
            Query::Reorder { var, arg } => Ok(Query::Reorder {
                var: *var,
                arg: arg.copy(alloc)?,
            }),
            Query::Schedule {
                lane,
                slot,
                arg,
                lanes,
            } => Ok(Query::Schedule {
                lane: *lane,
                slot: *slot,
                arg: arg.copy(alloc)?,
                lanes: *lanes,
            }),
        }
    }
}

/// The condition of a divided matrix: the head's variable `var` is below `bound`, or at least `bound`.
#[derive(Clone, Copy, Debug, PartialEq, Eq)]
pub struct Cond {
    /// The number of the variable among the head's names.
    pub var: u32,
    /// Whether the test is `<`; else it is `>=`.
    pub less: bool,
    /// What the variable is compared with.
    pub bound: u32,
}

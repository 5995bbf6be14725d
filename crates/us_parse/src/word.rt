//! The words of queries.

/// The queries of one variable.
#[derive(Clone, Copy, Debug, PartialEq, Eq)]
pub enum Word {
    Sum,
    Enumerate,
    Reorder,
}

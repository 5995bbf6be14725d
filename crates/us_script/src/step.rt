// A step of a script.

/// A step of a script.
#[derive(Clone, Copy, Debug, PartialEq, Eq)]
pub enum Step {
    /// The value at a row and a column, both numbered from 0, is `v` from here on; 0 takes the entry away.
    Set { i: u32, j: u32, v: i64 },
    /// The matrix is again what it was before the latest set that isn't undone.
    Undo,
    /// The size is asked for. The line of the script counts from 1.
    Size { line: u64 },
}

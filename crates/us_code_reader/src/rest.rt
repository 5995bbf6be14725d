//! Parts of statements and lines in the making.

use us_code::{Block, Buf, Dim, Term};

/// What stands behind the equal sign of a `let`.
#[derive(Drop)]
pub enum Given {
    Computed(Term),
    Loaded(Buf, Term),
}

/// What stands behind the register of a `for`.
#[derive(Drop)]
pub enum Bound {
    /// From 0 up to a dim.
    Upto(Dim, Block),
    /// From the first term up to the second, below a dim.
    Spanned(Term, Term, Dim, Block),
}

/// What stands behind the name of a dim that is defined.
#[derive(Drop)]
pub enum Shape {
    /// A term's value.
    Takes(Term),
    /// A product.
    Times(Dim, Dim),
    /// One more than a dim.
    Follows(Dim),
}

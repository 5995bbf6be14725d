//! Declarations of formats.

use crate::column::Column;
use crate::name::Name;
use sqlite_items::Items;
use us_expr::{Cond, Expr, Query};

/// Names of a head or a part, each once, in the order of their first occurrences.
pub type Names = Items<Name>;

/// The queries of a head or a part, in order.
pub type Queries = Items<Query>;

/// The levels of a part, in order.
pub type Levels = Items<Expr>;

/// The numbers after `trim` or `merge`.
pub type Numbers = Items<u32>;

/// The columns of a pack.
pub type Pack = Items<Column>;

/// The packs of a part.
pub type Packs = Items<Pack>;

/// The conditions of a head, in order.
pub type Conds = Items<Cond>;

/// The parts of a divided declaration, in order: one for each condition, and the last for the rest.
pub type Parts = Items<Part>;

/// The declaration of a format.
#[derive(Debug, Drop)]
pub struct Decl {
    pub name: Name,
    pub body: Body,
}

/// One part, or a head whose conditions divide the entries among parts. An entry belongs to the part of the first
/// condition that it meets, and to the last part if it meets none.
#[derive(Debug, Drop)]
pub enum Body {
    One(Part),
    Split { head: Head, parts: Parts },
}

/// The queries of a divided declaration, over the whole matrix, and its conditions, one to three.
#[derive(Debug, Drop)]
pub struct Head {
    pub names: Names,
    pub queries: Queries,
    pub conds: Conds,
}

/// Queries, levels, and how the levels are stored.
#[derive(Debug, Drop)]
pub struct Part {
    pub names: Names,
    pub queries: Queries,
    pub levels: Levels,
    pub trim: Numbers,
    pub merge: Numbers,
    pub packs: Packs,
}

//! Where the coordinates of an entry and the tables of queries are.

ghost use Rattle.std.specs.Prelude.{◌≡◌, IfOk};
ghost use Rattle.us_code.specs.Plain.{term_tree};
ghost use Rattle.us_gen.specs.Levels as nests;
ghost use Rattle.us_gen_recover.specs.Recovery as recovery;

use std::alloc::{AllocError, Global};
use us_code::{Dim, Term, add, sub};

/// The register of a level's coordinate, which is the level's value less the low end of its range.
#[derive(Clone, Copy, Debug, PartialEq, Eq)]
pub struct Coordinate {
    /// The register.
    pub reg: u32,
    /// The low end of the range.
    pub low: i64,
}

/// The table of a query.
#[derive(Clone, Copy, Debug, PartialEq, Eq)]
pub struct Table {
    /// The source that holds the table.
    pub source: u32,
    /// The extent of the query: the slots of each lane.
    pub extent: Dim,
}

/// The coordinate of a level.
pub(crate) fn coordinate_at(levels: &[Coordinate], level: u32) -> Coordinate
    ensures { result ≡ recovery.coordinate levels.now level }
{
    match levels.get(level as usize) {
        Some(place) => *place,
        None => Coordinate { reg: 0, low: 0 },
    }
}

/// The table of a query.
pub(crate) fn table_at(tables: &[Table], query: u32) -> Table
    ensures { result ≡ recovery.table tables.now query }
{
    match tables.get(query as usize) {
        Some(place) => *place,
        None => Table {
            source: 0,
            extent: Dim::Number(0),
        },
    }
}

/// The value of a level: its coordinate plus the low end.
pub(crate) fn level_term(alloc: Global, place: Coordinate) -> Result<Term, AllocError>
    ensures { IfOk result (λ t. term_tree t ≡ recovery.shifted place.reg place.low) }
{
    let size = Term::Number(place.low.unsigned_abs());
    if place.low == 0 {
        Ok(Term::Reg(place.reg))
    } else if place.low < 0 {
        sub(alloc, Term::Reg(place.reg), size)
    } else {
        add(alloc, Term::Reg(place.reg), size)
    }
}

/// A dim as a term.
pub(crate) fn size_term(size: Dim) -> Term
    ensures { term_tree result ≡ nests.size_term size }
{
    match size {
        Dim::Number(n) => Term::Number(n),
        Dim::Name(d) => Term::Size(Dim::Name(d)),
        Dim::Len(k) => Term::Size(Dim::Len(k)),
    }
}

//! The entries of a part, ready to go down its levels.
ghost use Rattle.std.specs.Prelude.{IfOk};
ghost use Rattle.us_build.specs.Pieces.{AreRowsOf, IsBuildable};

use crate::items::{Item, sorted_items};
use crate::levels::{Level, levels_for};
use crate::ranges::ranges_of;
use std::alloc::{AllocError, Global};
use us_expr::{Expr, Query};
use us_format::Kind;
use us_matrix::{Shape, Triple};
use us_variables::Variables;

/// The levels of a part, and its entries in ascending order of their coordinates at all levels.
#[derive(Debug, Drop)]
pub struct Rows {
    /// The levels.
    pub levels: Vec<Level>,
    /// The entries on their way down.
    pub items: Vec<Item>,
}

impl Rows {
    /// The entries of a lawful part, which has these level expressions, kinds and queries, above the first level. The
    /// variables are those of the queries on the entries. Fails only where memory is wanting.
    pub fn new(
        alloc: Global,
        levels: &[Expr],
        kinds: &[Kind],
        queries: &[Query],
        variables: &Variables,
        shape: Shape,
        entries: &[Triple],
    ) -> Result<Rows, AllocError>
        requires { IsBuildable levels.now kinds.now queries.now variables.now shape entries.now }
        ensures { IfOk result (λ r. AreRowsOf levels.now kinds.now queries.now variables.now shape entries.now r.levels.items r.items.items) }
    {
        let ranges = ranges_of(queries, variables, shape);
        let made = levels_for(alloc, levels, kinds, &ranges)?;
        let items = sorted_items(alloc, levels, &made, variables, entries)?;
        Ok(Rows {
            levels: made,
            items,
        })
    }
}

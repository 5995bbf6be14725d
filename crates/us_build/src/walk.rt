//! A walk down the levels, one level at a time.
ghost use Rattle.std.specs.Prelude.{◌≡◌, ◌<◌, ◌++◌, [], map, length, true, false, OnOk, IfOk};
ghost use Rattle.us_format.specs.Declaration.{Part};
ghost use Rattle.us_format.specs.Packs.{written};
ghost use Rattle.us_build.specs.Cells.{BeginsWith};
ghost use Rattle.us_build.specs.Pieces.{IsBuildable, IsPartOf};
ghost use Rattle.us_format.specs.Buffers.{val_buffer};
ghost use Rattle.us_build.specs.Ways.{IsStartOn, Way, first_buffers, is_first_long, way_below};

use crate::cells::{push_level, values};
use crate::items::{Item, PLACES};
use crate::levels::Level;
use crate::passes::is_too_long;
use crate::rows::Rows;
use crate::steps::go_down;
use std::alloc::{AllocError, Global};
use std::marker::Model;
use us_expr::{Expr, Query};
use us_format::Kind;
use us_matrix::{Buffers, Shape, Triple};
use us_variables::Variables;

/// Entries on their way down the levels of a part. Contracts see the levels that are left, how many positions there are
/// before them, and the entries as rows there.
#[derive(Drop)]
pub struct Walk {
    items: Vec<Item>,
    levels: Vec<Level>,
    done: usize,
    positions: u64,
}

impl Model for Walk {
    ghost use Rattle.us_build.specs.Ways.{Way, IsOnWay, way_of};

    ghost Value = { Way };

    ghost view = { λ w. way_of w.levels.items w.done w.positions w.items.items };

    ghost invariant = { λ w. IsOnWay w.levels.items w.done w.positions w.items.items };
}

impl Walk {
    /// The entries of a lawful part, which has these level expressions, kinds and queries, above its first level. The
    /// variables are those of the queries on the entries. Fails only where memory is wanting.
    pub fn start(
        alloc: Global,
        levels: &[Expr],
        kinds: &[Kind],
        queries: &[Query],
        variables: &Variables,
        shape: Shape,
        entries: &[Triple],
    ) -> Result<Walk, AllocError>
        requires { IsBuildable levels.now kinds.now queries.now variables.now shape entries.now }
        ensures { IfOk result (λ w. (p : Part) → IsPartOf p levels.now kinds.now queries.now variables.now → IsStartOn shape p entries.now w) }
    {
        let Rows { levels, items } = Rows::new(
            alloc, levels, kinds, queries, variables, shape, entries,
        )?;
        Ok(Walk {
            items,
            levels,
            done: 0,
            positions: 1,
        })
    }

    /// Whether no level is left.
    pub fn is_done(&self) -> bool
        ensures done { result ≡ true → self.now.levels ≡ [] }
        ensures left { result ≡ false → 0 < length self.now.levels }
    {
        self.done == self.levels.len()
    }

    /// Whether the next level is full and has more positions than the limit.
    pub fn is_too_long(&self) -> bool
        ensures { result ≡ is_first_long self.now.levels self.now.positions }
    {
        if self.done == self.levels.len() {
            return false;
        }
        is_too_long(&self.levels[self.done], self.positions)
    }

    /// Goes down one level, which is not too long, and adds its lists. Fails only where memory is wanting: the walk is one
    /// level down then too, and the lists that were there before stand.
    pub fn step(&mut self, alloc: Global, lists: &mut Buffers) -> Result<(), AllocError>
        requires left { 0 < length self.old.levels }
        requires short { is_first_long self.old.levels self.old.positions ≡ false }
        ensures lists { OnOk result (lists.new ≡ lists.old ++ map written (first_buffers self.old.levels self.old.positions self.old.rows)) }
        ensures kept { BeginsWith lists.new lists.old }
        ensures below { self.new ≡ way_below self.old.levels self.old.positions self.old.rows }
    {
        let index = PLACES - self.levels.len() + self.done;
        let level = self.levels[self.done];
        let above = self.positions;
        let below = go_down(&mut self.items, index, &level, above);
        self.done += 1;
        self.positions = below;
        push_level(alloc, lists, &self.items, index, &level, above, below)
    }

    /// The values, where no level is left. Fails only where memory is wanting.
    pub fn values(&self, alloc: Global) -> Result<Vec<i64>, AllocError>
        requires { self.now.levels ≡ [] }
        ensures { IfOk result (λ v. v.items ≡ written (val_buffer self.now.positions self.now.rows)) }
    {
        values(alloc, &self.items, self.positions)
    }
}

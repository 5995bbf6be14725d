//! Tables of the first parents of a level's positions, made in one pass over the level's starts.
ghost use Rattle.std.specs.Prelude.{◌≡◌, ◌<◌, ◌≤◌, ℕ, length, IfOk, IfSome};
ghost use Rattle.std.specs.List.{range_with_len};
ghost use Rattle.std.proofs.Common.{replicate};
ghost use Rattle.us_format.specs.Climb.{parent_of};
ghost use Rattle.us_format.specs.Lists.{cell, nth};
ghost use Rattle.us_climb.specs.Layout.{AreSound, IsInside};
ghost use Rattle.us_climb.specs.Parents.{AreBelow, AreParents, AreSkips, IsTable, claimed, entry, none, number, place_of, tables_in};

use crate::cells::{column_len, list_at};
use crate::layout::{Layout, LevelLayout};
use std::alloc::{AllocError, Global};
use us_format::Kind;
use us_matrix::Buffers;

/// The number that stands for no parent in a table.
const NONE: usize = usize::MAX;

/// The parent that a table has for a position, if the position is in the table.
pub fn parent_in(table: &[usize], x: usize) -> Option<Option<usize>>
    ensures inside { IfSome result (λ p. number p ≡ entry table.now x) }
    ensures small { IfSome result (λ p. IfSome p (λ parent. parent < none)) }
    ensures within { IfSome result (λ _. x < length table.now) }
{
    let parent = *table.get(x)?;
    Some(if parent == NONE { None } else { Some(parent) })
}

/// The place among so many positions of the start with this number.
fn place_of(count: usize, starts: &[i64], number: usize) -> usize
    requires { number < length starts.now }
    ensures { result ≡ place_of count (cell starts.now number) }
{
    let start = starts[number];
    if start < 0 {
        0
    } else {
        start.unsigned_abs().min(count as u64) as usize
    }
}

/// The first position from a place on that has no parent, or the end. What was passed over is passed faster the next time.
fn first_free(table: &[usize], skips: &mut [usize], from: usize) -> usize
    requires { AreSkips table.now skips.old }
    ensures skips { AreSkips table.now skips.new }
    ensures behind { from ≤ result }
    ensures over { (x : ℕ) → from ≤ x → x < result → x < length table.now → entry table.now x < none }
    ensures free { result < length table.now → none ≤ entry table.now result }
{
    let mut place = from;
    while place < table.len() && table[place] != NONE {
        let next = skips[place];
        let further = if next < skips.len() {
            skips[next]
        } else {
            next
        };
        skips[place] = further;
        place = further;
    }
    place
}

/// Gives a parent to all positions from `low` on and below `high` that have none.
fn claim(table: &mut [usize], skips: &mut [usize], low: usize, high: usize, parent: usize)
    requires skips { AreSkips table.old skips.old }
    requires high { high ≤ length table.old }
    requires parent { parent < none }
    ensures skips { AreSkips table.new skips.new }
    ensures len { length table.new ≡ length table.old }
    ensures claimed { (x : ℕ) → x < length table.old → entry table.new x ≡ claimed low high parent x (entry table.old x) }
{
    let mut place = first_free(table, skips, low);
    while place < high {
        table[place] = parent;
        skips[place] = place + 1;
        place = first_free(table, skips, place + 1);
    }
}

/// So many positions without parents.
fn no_parents(alloc: Global, count: usize) -> Result<Vec<usize>, AllocError>
    ensures { IfOk result (λ v. v.items ≡ replicate count none) }
{
    Ok(vec![in alloc; NONE; count]?)
}

/// Each position skips to itself.
fn no_skips(alloc: Global, count: usize) -> Result<Vec<usize>, AllocError>
    ensures { IfOk result (λ v. v.items ≡ range_with_len 0 count) }
{
    let mut skips = Vec::with_capacity(alloc, count)?;
    for x in 0..count {
        skips.push(x)?;
    }
    Ok(skips)
}

/// Gives the positions of a table without parents their first parents, by the starts of the ranges of all parents.
fn fill(starts: &[i64], table: &mut [usize], skips: &mut [usize])
    requires skips { AreSkips table.old skips.old }
    requires below { AreBelow starts.now 0 table.old }
    ensures len { length table.new ≡ length table.old }
    ensures filled { IsTable starts.now table.new }
{
    let count = table.len();
    for p in 1..starts.len() {
        let low = place_of(count, starts, p - 1);
        let high = place_of(count, starts, p);
        claim(table, skips, low, high, p - 1);
    }
}

/// The first parents of so many positions, by the starts of the ranges of all parents.
fn table_of(alloc: Global, starts: &[i64], count: usize) -> Result<Vec<usize>, AllocError>
    ensures { IfOk result (λ v. IsTable starts.now v.items) }
{
    let mut table = no_parents(alloc, count)?;
    let mut skips = no_skips(alloc, count)?;
    fill(starts, &mut table, &mut skips);
    Ok(table)
}

/// The table of a level, which is empty where the level has no starts.
fn level_table(
    alloc: Global,
    level: &LevelLayout,
    buffers: &Buffers,
) -> Result<Vec<usize>, AllocError>
    requires { IsInside level.now.cells }
    ensures { IfOk result (λ v. IsTable (nth buffers.now level.now.starts) v.items) }
{
    match level.kind {
        Kind::Full | Kind::Slot => Ok(Vec::new(alloc)),
        Kind::Compressed | Kind::Listed => {
            let count = column_len(&level.cells, buffers);
            table_of(alloc, list_at(buffers, level.starts), count)
        }
    }
}

/// The tables of levels.
fn level_tables(
    alloc: Global,
    levels: &[LevelLayout],
    buffers: &Buffers,
) -> Result<Vec<Vec<usize>>, AllocError>
    requires { AreSound levels.now }
    ensures { IfOk result (λ v. AreParents levels.now (tables_in v.items) buffers.now) }
{
    let mut tables = Vec::new(alloc);
    for level in levels {
        tables.push(level_table(alloc, level, buffers)?)?;
    }
    Ok(tables)
}

/// The tables of the levels of a part.
pub fn parents_of(
    alloc: Global,
    layout: &Layout,
    buffers: &Buffers,
) -> Result<Vec<Vec<usize>>, AllocError>
    requires { AreSound layout.now.levels.items }
    ensures { IfOk result (λ v. AreParents layout.now.levels.items (tables_in v.items) buffers.now) }
{
    level_tables(alloc, layout.levels.as_slice(), buffers)
}

//! Entries on their way down the levels.
ghost use Rattle.std.specs.Prelude.{◌≡◌, ◌<◌, ◌≤◌, ◌^◌, ℤ, List, length, map, All, IfOk};
ghost use Rattle.std.specs.List.Sorted.{IsPermutation, IsSortedBy};
ghost use Rattle.std.specs.Ordering.{is_lt};
ghost use Rattle.us_expr.specs.Tree.{tree};
ghost use Rattle.us_expr.specs.Value.{IsPoint, IsValid};
ghost use Rattle.us_format.specs.Lists.{lower};
ghost use Rattle.us_format.specs.Matrix.{Entry};
ghost use Rattle.us_build.specs.Levels.{AreValues, HasCoordinates, HaveCoordinates, LiesInLevels, item_over, items_over, six};

use crate::levels::{Level, distance};
use arrayvec::ArrayVec;
use std::alloc::{AllocError, Global};
use std::cmp::Ordering;
use us_expr::{Expr, Point, eval};
use us_matrix::Triple;
use us_variables::Variables;

/// How many places an item has for coordinates: a part has at most so many levels.
pub(crate) const PLACES: usize = 6;

/// An entry on its way down: its position now and one level above, its coordinates at all levels, and its value.
///
/// The coordinates stand right-aligned, so that the last level's is always the last; places in front are 0.
#[derive(Clone, Copy, Debug)]
pub struct Item {
    pub(crate) above: u64,
    pub(crate) at: u64,
    pub(crate) coordinates: [u64; PLACES],
    pub(crate) value: i64,
}

/// The coordinates of a point at the levels of these expressions.
fn coordinates_of(exprs: &[Expr], levels: &[Level], point: &Point) -> [u64; PLACES]
    requires count { length exprs.now ≤ 6 }
    requires levels { length levels.now ≡ length exprs.now }
    requires sizes { All (λ l. l.size < 2 ^ 38) levels.now }
    requires valid { All (λ e. IsValid point.now.vars.items (tree e)) exprs.now }
    requires point { IsPoint point.now.i point.now.j point.now.vars.items }
    requires lies { LiesInLevels point.now.i point.now.j point.now.vars.items (map tree exprs.now) levels.now }
    ensures { result ≡ six point.now.i point.now.j point.now.vars.items (map tree exprs.now) levels.now }
{
    let mut coordinates = [0u64; PLACES];
    let first = PLACES - exprs.len();
    for (k, e) in exprs.iter().enumerate() {
        coordinates[first + k] = distance(levels[k].low, eval(e, point));
    }
    coordinates
}

/// The item of an entry above the first level, where the variables have these values.
fn item_of(exprs: &[Expr], levels: &[Level], entry: &Triple, vars: ArrayVec<i64, 32>) -> Item
    requires count { length exprs.now ≤ 6 }
    requires levels { length levels.now ≡ length exprs.now }
    requires sizes { All (λ l. l.size < 2 ^ 38) levels.now }
    requires placed { HasCoordinates exprs.now levels.now vars.items entry.now }
    ensures { result ≡ item_over (map tree exprs.now) levels.now vars.items entry.now }
{
    let point = Point {
        i: i64::from(entry.i),
        j: i64::from(entry.j),
        vars,
    };
    Item {
        above: 0,
        at: 0,
        coordinates: coordinates_of(exprs, levels, &point),
        value: entry.v,
    }
}

/// The items of these entries above the first level, in the order of the entries.
fn items_of(
    alloc: Global,
    exprs: &[Expr],
    levels: &[Level],
    variables: &Variables,
    entries: &[Triple],
) -> Result<Vec<Item>, AllocError>
    requires count { length exprs.now ≤ 6 }
    requires levels { length levels.now ≡ length exprs.now }
    requires sizes { All (λ l. l.size < 2 ^ 38) levels.now }
    requires names { variables.now.names ≤ 32 }
    requires placed { HaveCoordinates exprs.now levels.now variables.now entries.now }
    ensures { IfOk result (λ items. (f : Entry → List ℤ) → AreValues f variables.now entries.now → items.items ≡ items_over (map tree exprs.now) levels.now f entries.now) }
{
    let mut items = Vec::new(alloc);
    for (k, entry) in entries.iter().enumerate() {
        items.push(item_of(exprs, levels, entry, variables.values(k)))?;
    }
    Ok(items)
}

/// How two items stand by their coordinates.
fn compare(a: &Item, b: &Item) -> Ordering
    ensures { is_lt result ≡ lower a.now.coordinates b.now.coordinates }
{
    a.coordinates.cmp(&b.coordinates)
}

/// Sorts items by their coordinates.
fn sort(items: &mut [Item])
    ensures permutation { IsPermutation items.old items.new }
    ensures sorted { IsSortedBy (λ x y. lower x.coordinates y.coordinates) items.new }
{
    items.sort_unstable_by(|a, b| compare(a, b));
}

/// The items of these entries above the first level, in ascending order of their coordinates.
pub(crate) fn sorted_items(
    alloc: Global,
    exprs: &[Expr],
    levels: &[Level],
    variables: &Variables,
    entries: &[Triple],
) -> Result<Vec<Item>, AllocError>
    requires count { length exprs.now ≤ 6 }
    requires levels { length levels.now ≡ length exprs.now }
    requires sizes { All (λ l. l.size < 2 ^ 38) levels.now }
    requires names { variables.now.names ≤ 32 }
    requires placed { HaveCoordinates exprs.now levels.now variables.now entries.now }
    ensures permutation { IfOk result (λ xs. (f : Entry → List ℤ) → AreValues f variables.now entries.now → IsPermutation (items_over (map tree exprs.now) levels.now f entries.now) xs.items) }
    ensures sorted { IfOk result (λ items. IsSortedBy (λ x y. lower x.coordinates y.coordinates) items.items) }
{
    let mut items = items_of(alloc, exprs, levels, variables, entries)?;
    sort(&mut items);
    Ok(items)
}

//! The places of levels.
ghost use Rattle.std.specs.Prelude.{◌≡◌, ◌+◌, ◌<◌, ◌≤◌, ◌^◌, ◌++◌, ℕ, [], Some, IsTrue, length, IfOk};
ghost use Rattle.us_expr.specs.Range.{IsNear};
ghost use Rattle.us_format.specs.Coordinates.{span as span_of};
ghost use Rattle.us_format.specs.Kinds.{kind as kind_of};
ghost use Rattle.us_format.specs.Reading.{pack_place};
ghost use Rattle.us_format_loops.specs.Nodes.{has_nodes};
ghost use Rattle.us_judge.specs.Views.{plain_part};
ghost use Rattle.us_gen_parts.specs.Own.{own_from};
ghost use Rattle.us_gen_places.specs.Places as places;

use crate::columns::{nodes_of, place_of};
use std::alloc::AllocError;
use us_code::Dim;
use us_decl::{Column, Part};
use us_expr::Range;
use us_format::Kind;
use us_gen_places::{LevelPlace, PartStart};
use us_gen_walk::{Loop, Slot};

/// How many numbers a range has.
fn span(range: Range) -> u64
    requires lo { IsNear (2 ^ 37) range.lo }
    requires hi { IsNear (2 ^ 37) range.hi }
    ensures { result ≡ span_of range }
{
    let count = range.hi + 1 - range.lo;
    if count < 0 { 0 } else { count.unsigned_abs() }
}

/// How many coordinates a level has: the extent of the query that bounds it, or as many as its range has numbers.
fn size_by(start: PartStart, counted: Option<u32>, range: Range) -> Dim
    requires base { start.dim < 2 ^ 31 }
    requires counted { (q : ℕ) → counted ≡ Some q → q < 16 }
    requires lo { IsNear (2 ^ 37) range.lo }
    requires hi { IsNear (2 ^ 37) range.hi }
    ensures { result ≡ places.size_by start counted range }
{
    match counted {
        Some(query) => Dim::Name(start.dim + query),
        None => Dim::Number(span(range)),
    }
}

/// The place of a level with nodes, whose starts are buffer `own` of the part.
fn loop_of(
    part: &Part,
    level: usize,
    range: Range,
    own: usize,
    first_pack: usize,
    start: PartStart,
) -> Loop
    requires base { start.source < 2 ^ 31 }
    requires dims { start.dim < 2 ^ 31 }
    requires first { first_pack ≡ pack_place (plain_part part.now) 0 }
    requires room { first_pack + length part.now.packs < 2 ^ 16 }
    requires few { level ≤ 16 }
    requires level { level < length (plain_part part.now).levels }
    requires nodes { IsTrue (has_nodes (kind_of (plain_part part.now) level)) }
    requires own_few { own ≤ 1000 }
    requires own { own ≡ own_from (plain_part part.now) level }
    requires lo { IsNear (2 ^ 37) range.lo }
    ensures { result ≡ places.loop_of start (plain_part part.now) level range }
{
    let number = level as u32;
    let crd = place_of(part, start, first_pack, own + 1, Column::Level(number));
    Loop::Nodes {
        pos: start.source + own as u32,
        more: Dim::Name(start.dim + 17 + 2 * number),
        nodes: nodes_of(part, start, number, crd),
        crd,
        low: range.lo,
    }
}

/// The place of a level of this kind and range, which a query bounds, if any. `own` is the number in the part of the next
/// buffer that no pack has.
pub(crate) fn place_by(
    part: &Part,
    level: usize,
    counted: Option<u32>,
    range: Range,
    kind: Kind,
    own: usize,
    first_pack: usize,
    start: PartStart,
) -> LevelPlace
    requires base { start.source < 2 ^ 31 }
    requires dims { start.dim < 2 ^ 31 }
    requires first { first_pack ≡ pack_place (plain_part part.now) 0 }
    requires room { first_pack + length part.now.packs < 2 ^ 16 }
    requires few { level ≤ 16 }
    requires level { level < length (plain_part part.now).levels }
    requires kind { kind ≡ kind_of (plain_part part.now) level }
    requires own_few { own ≤ 1000 }
    requires own { own ≡ own_from (plain_part part.now) level }
    requires counted { (q : ℕ) → counted ≡ Some q → q < 16 }
    requires lo { IsNear (2 ^ 37) range.lo }
    requires hi { IsNear (2 ^ 37) range.hi }
    ensures { result ≡ places.place_by start (plain_part part.now) level counted range kind }
{
    match kind {
        Kind::Full => LevelPlace::InFront(Loop::Full {
            size: size_by(start, counted, range),
            low: range.lo,
        }),
        Kind::Compressed | Kind::Listed => {
            LevelPlace::InFront(loop_of(part, level, range, own, first_pack, start))
        }
        Kind::Slot => LevelPlace::Behind(Slot {
            crd: place_of(part, start, first_pack, own, Column::Level(level as u32)),
            low: range.lo,
        }),
    }
}

/// Puts the place of a level behind those of its sort.
pub(crate) fn keep(
    place: LevelPlace,
    loops: &mut Vec<Loop>,
    slots: &mut Vec<Slot>,
) -> Result<(), AllocError>
    ensures loops { IfOk result (λ _. loops.new.items ≡ loops.old.items ++ places.with_loop place []) }
    ensures slots { IfOk result (λ _. slots.new.items ≡ slots.old.items ++ places.with_slot place []) }
{
    match place {
        LevelPlace::InFront(level) => {
            loops.push(level)?;
        }
        LevelPlace::Behind(slot) => {
            slots.push(slot)?;
        }
    }
    Ok(())
}

//! The places of a part.
ghost use Rattle.std.specs.Prelude.{◌≡◌, ◌+◌, ◌-◌, ◌<◌, ◌≤◌, ◌^◌, length, IfOk};
ghost use Rattle.us_format.specs.Program.{plain_shape};
ghost use Rattle.us_format.specs.Reading.{pack_place};
ghost use Rattle.us_judge.specs.Format.{part_at};
ghost use Rattle.us_judge.specs.Views.{declaration_of, plain_part};
ghost use Rattle.us_matrix.specs.Map.{IsSide};
ghost use Rattle.us_gen_parts.specs.Own.{IsPartOf, own_from};
ghost use Rattle.us_gen_places.specs.Places as places;
ghost use Rattle.us_gen_places.specs.Places.{ArePlacesOf};

use crate::columns::place_of;
use crate::levels::{keep, place_by};
use crate::queries::{counted_at, extent_count, first_own, push_tables};
use std::alloc::{AllocError, Global};
use us_decl::{Column, Part};
use us_gen_places::{LevelPlace, PartStart};
use us_gen_walk::Places;
use us_judge::{Format, own_of_level};
use us_matrix::Shape;

/// The place of a level of a format's part. `own` is the number in the part of the next buffer that no pack has.
fn level_place(
    format: &Format,
    number: usize,
    part: &Part,
    level: usize,
    own: usize,
    first_pack: usize,
    start: PartStart,
    shape: Shape,
) -> LevelPlace
    requires base { start.source < 2 ^ 31 }
    requires dims { start.dim < 2 ^ 31 }
    requires part { IsPartOf format.now number (plain_part part.now) }
    requires first { first_pack ≡ pack_place (plain_part part.now) 0 }
    requires room { first_pack + length part.now.packs < 2 ^ 16 }
    requires few { level ≤ 16 }
    requires level { level < length (plain_part part.now).levels }
    requires own_few { own ≤ 1000 }
    requires own { own ≡ own_from (plain_part part.now) level }
    requires rows { shape.rows < 2 ^ 31 }
    requires cols { shape.cols < 2 ^ 31 }
    ensures { result ≡ places.place_at start (plain_shape shape) (plain_part part.now) level }
{
    let kind = format.kind(number, level);
    let counted = counted_at(part, level);
    let none = [0; 16];
    let range = format.level_range(number, level, &none, shape.rows, shape.cols);
    place_by(part, level, counted, range, kind, own, first_pack, start)
}

/// The places of a part, the packs of which have the buffers from `first_pack` on.
fn places_with(
    alloc: Global,
    format: &Format,
    number: usize,
    part: &Part,
    first_pack: usize,
    start: PartStart,
    shape: Shape,
) -> Result<Places, AllocError>
    requires base { start.source < 2 ^ 31 }
    requires dims { start.dim < 2 ^ 31 }
    requires part { IsPartOf format.now number (plain_part part.now) }
    requires first { first_pack ≡ pack_place (plain_part part.now) 0 }
    requires room { first_pack + length part.now.packs < 2 ^ 16 }
    requires rows { shape.rows < 2 ^ 31 }
    requires cols { shape.cols < 2 ^ 31 }
    ensures { IfOk result (λ w. ArePlacesOf start (plain_shape shape) (plain_part part.now) w) }
{
    let mut loops = Vec::new(alloc);
    let mut slots = Vec::new(alloc);
    let mut own = first_own(part);
    for level in 0..part.levels.len() {
        let place = level_place(format, number, part, level, own, first_pack, start, shape);
        keep(place, &mut loops, &mut slots)?;
        let kind = format.kind(number, level);
        own += own_of_level(part, kind, level);
    }
    let values = place_of(part, start, first_pack, own, Column::Val);
    let mut tables = Vec::new(alloc);
    let queries = part.queries.as_slice();
    let extents = extent_count(queries);
    push_tables(&mut tables, queries, start, extents as u32, 0)?;
    Ok(Places {
        loops,
        values,
        slots,
        tables,
    })
}

/// The places of the part with this number, counted from 1, for a matrix of this shape. It fails only for want of memory.
pub fn places_of(
    alloc: Global,
    format: &Format,
    number: usize,
    start: PartStart,
    shape: Shape,
) -> Result<Places, AllocError>
    requires base { start.source < 2 ^ 31 }
    requires dims { start.dim < 2 ^ 31 }
    requires from_one { 1 ≤ number }
    requires part { number ≤ length (declaration_of format.now).parts }
    requires rows { IsSide shape.rows }
    requires cols { IsSide shape.cols }
    ensures { IfOk result (λ w. ArePlacesOf start (plain_shape shape) (part_at (declaration_of format.now) (number - 1)) w) }
{
    let part = format.part(number);
    let first_pack = format.part_buffers(number) - part.packs.len();
    places_with(alloc, format, number, part, first_pack, start, shape)
}

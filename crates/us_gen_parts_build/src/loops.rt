//! A part of a format, as loops take it.

ghost use Rattle.std.specs.Prelude.{◌≡◌, ◌+◌, ◌*◌, ◌<◌, ◌≤◌, ◌^◌, All, IfOk, MatchOption, length, map};
ghost use Rattle.us_expr.specs.Value.{IsWithin};
ghost use Rattle.us_format.specs.Program.{plain_shape};
ghost use Rattle.us_judge.specs.Views.{plain_part};
ghost use Rattle.us_gen_parts.specs.Own.{IsPartOf};
ghost use Rattle.us_gen_coordinates.specs.Phase as coordinates;
ghost use Rattle.us_gen_parts_build.specs.Parts as parts;
ghost use Rattle.us_gen_parts_build.specs.Parts.{AreLoops, run_of};
ghost use Rattle.us_gen_parts_build.specs.Phases.{columns_from};

use crate::levels::levels_of;
use crate::packs::runs_of;
use std::alloc::{AllocError, Global};
use us_code::{Columns, Numbers};
use us_decl::Part;
use us_gen_building::{PartLevel, PartLoops, order_keys};
use us_gen_coordinates::coordinate_columns;
use us_gen_pack_building::PackedLoops;
use us_judge::Format;
use us_matrix::Shape;

/// By how many coordinates the entries are put in order, if they are.
fn keys_of(sorts: bool, levels: &[PartLevel]) -> Option<usize>
    ensures value { result ≡ parts.keys_of sorts levels.now }
    ensures few { MatchOption result (Unit {0}) (λ k. k ≤ length levels.now) }
{
    if sorts { order_keys(levels) } else { None }
}

/// The columns of the coordinates of the levels, the new ones of which have numbers from `first` on.
fn columns_of(
    alloc: Global,
    columns: &Columns,
    part: &Part,
    lows: &[i64],
    first: u32,
) -> Result<Numbers, AllocError>
    requires within { All (IsWithin (length columns.now.vars.items)) (plain_part part.now).levels }
    requires levels { length (plain_part part.now).levels ≤ 16 }
    requires room { first < 2 ^ 31 + 1024 }
    ensures { IfOk result (λ cs. cs ≡ coordinates.columns_for columns.now (plain_part part.now).levels lows.now first) }
{
    let mut names = Numbers::new(alloc);
    coordinate_columns(columns, part.levels.as_slice(), lows, first, &mut names)?;
    Ok(names)
}

/// The loops of a part whose columns of entries these are. Its extents have the dims from `first` on; the levels have these
/// low ends.
pub(crate) fn part_loops(
    alloc: Global,
    format: &Format,
    number: usize,
    part: &Part,
    shape: Shape,
    columns: &Columns,
    lows: &[i64],
    sorts: bool,
    first: u32,
) -> Result<PackedLoops, AllocError>
    requires part { IsPartOf format.now number (plain_part part.now) }
    requires rows { shape.rows < 2 ^ 31 }
    requires cols { shape.cols < 2 ^ 31 }
    requires within { All (IsWithin (length columns.now.vars.items)) (plain_part part.now).levels }
    requires lows { lows.now ≡ parts.lows_of (plain_shape shape) (plain_part part.now) }
    requires runs { All (λ pack. (run_of (length (plain_part part.now).levels) pack).end < 2 ^ 32) (plain_part part.now).packs }
    requires room { first < 2 ^ 31 }
    ensures few { IfOk result (λ x. MatchOption x.part.keys (Unit {0}) (λ k. k ≤ length x.part.levels.items)) }
    ensures loops { IfOk result (λ x. AreLoops sorts (plain_shape shape) (plain_part part.now) columns.now first (columns_from first) x) }
{
    let names = columns_of(alloc, columns, part, lows, first + 16)?;
    let levels = levels_of(alloc, format, number, part, shape, names.as_slice(), first)?;
    let count = part.levels.len() as u32;
    let packs = runs_of(alloc, part.packs.as_slice(), count)?;
    let keys = keys_of(sorts, levels.as_slice());
    Ok(PackedLoops {
        part: PartLoops {
            count: columns.count,
            levels,
            values: columns.v,
            keys,
        },
        packs,
    })
}

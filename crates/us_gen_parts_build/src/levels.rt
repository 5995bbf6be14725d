//! The levels of a part, as loops take them.

ghost use Rattle.std.specs.Prelude.{◌≡◌, ◌+◌, ◌<◌, ◌≤◌, ◌^◌, IfOk, length, slice_index_or};
ghost use Rattle.us_expr.specs.Range.{IsNear};
ghost use Rattle.us_expr.specs.Tree.{RowIndex};
ghost use Rattle.us_format.specs.Coordinates.{span as span_of};
ghost use Rattle.us_format.specs.Program.{plain_shape};
ghost use Rattle.us_judge.specs.Views.{plain_part};
ghost use Rattle.us_gen_parts.specs.Own.{IsPartOf};
ghost use Rattle.us_gen_places.specs.Places.{range_without};
ghost use Rattle.us_gen_parts_build.specs.Parts as parts;

use crate::queries::bound_at;
use std::alloc::{AllocError, Global};
use us_code::Dim;
use us_decl::Part;
use us_expr::Range;
use us_gen_building::PartLevel;
use us_judge::Format;
use us_matrix::Shape;

/// How many numbers a range has.
fn span(range: Range) -> u64
    requires lo { IsNear (2 ^ 37) range.lo }
    requires hi { IsNear (2 ^ 37) range.hi }
    ensures { result ≡ span_of range }
{
    let count = range.hi + 1 - range.lo;
    if count < 0 { 0 } else { count.unsigned_abs() }
}

/// How many coordinates a level has: the dim of the extent that bounds it, or as many as its range has numbers.
fn size_by(bound: Option<u32>, range: Range) -> Dim
    requires lo { IsNear (2 ^ 37) range.lo }
    requires hi { IsNear (2 ^ 37) range.hi }
    ensures { result ≡ parts.size_by bound range }
{
    match bound {
        Some(dim) => Dim::Name(dim),
        None => Dim::Number(span(range)),
    }
}

/// A level of a part, whose coordinates are in buffer `column`. The extents have the dims from `dim` on.
fn level_at(
    format: &Format,
    number: usize,
    part: &Part,
    level: usize,
    shape: Shape,
    column: u32,
    dim: u32,
) -> PartLevel
    requires part { IsPartOf format.now number (plain_part part.now) }
    requires level { level < length (plain_part part.now).levels }
    requires rows { shape.rows < 2 ^ 31 }
    requires cols { shape.cols < 2 ^ 31 }
    requires dims { dim < 2 ^ 31 }
    ensures { result
        ≡ parts.level_by (plain_shape shape) (plain_part part.now) dim level (slice_index_or (plain_part part.now).levels level RowIndex) column }
{
    let kind = format.kind(number, level);
    let bound = bound_at(part, level, dim);
    let none = [0; 16];
    let range = format.level_range(number, level, &none, shape.rows, shape.cols);
    let size = size_by(bound, range);
    PartLevel { kind, size, column }
}

/// The low end of a level's range, which no extent changes.
fn low_at(format: &Format, number: usize, part: &Part, level: usize, shape: Shape) -> i64
    requires part { IsPartOf format.now number (plain_part part.now) }
    requires level { level < length (plain_part part.now).levels }
    requires rows { shape.rows < 2 ^ 31 }
    requires cols { shape.cols < 2 ^ 31 }
    ensures is { result ≡ (range_without (plain_shape shape) (plain_part part.now) (slice_index_or (plain_part part.now).levels level RowIndex)).lo }
    ensures near { IsNear (2 ^ 37) result }
{
    let none = [0; 16];
    let range = format.level_range(number, level, &none, shape.rows, shape.cols);
    range.lo
}

/// The low ends of the levels of a part.
pub(crate) fn lows_of(
    alloc: Global,
    format: &Format,
    number: usize,
    part: &Part,
    shape: Shape,
) -> Result<Vec<i64>, AllocError>
    requires part { IsPartOf format.now number (plain_part part.now) }
    requires rows { shape.rows < 2 ^ 31 }
    requires cols { shape.cols < 2 ^ 31 }
    ensures { IfOk result (λ v. v.items ≡ parts.lows_of (plain_shape shape) (plain_part part.now)) }
{
    let mut lows = Vec::new(alloc);
    for level in 0..part.levels.len() {
        let low = low_at(format, number, part, level, shape);
        lows.push(low)?;
    }
    Ok(lows)
}

/// The levels of a part, whose coordinates are in these columns. The extents have the dims from `dim` on.
pub(crate) fn levels_of(
    alloc: Global,
    format: &Format,
    number: usize,
    part: &Part,
    shape: Shape,
    columns: &[u32],
    dim: u32,
) -> Result<Vec<PartLevel>, AllocError>
    requires part { IsPartOf format.now number (plain_part part.now) }
    requires rows { shape.rows < 2 ^ 31 }
    requires cols { shape.cols < 2 ^ 31 }
    requires columns { length columns.now ≡ length (plain_part part.now).levels }
    requires dims { dim < 2 ^ 31 }
    ensures { IfOk result (λ v. v.items ≡ parts.levels_from (plain_shape shape) (plain_part part.now) dim 0 (plain_part part.now).levels columns.now) }
{
    let mut levels = Vec::new(alloc);
    for level in 0..part.levels.len() {
        let next = level_at(format, number, part, level, shape, columns[level], dim);
        levels.push(next)?;
    }
    Ok(levels)
}

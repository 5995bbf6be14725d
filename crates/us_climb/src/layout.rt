//! Where the pieces of a format's part stand among its buffers.
ghost use Rattle.std.specs.Prelude.{◌≡◌, ◌+◌, ◌-◌, ◌<◌, ◌≤◌, ◌^◌, ℕ, All, None, Bool, ◌∷◌, ◌++◌, false, map, length, slice_index_or, filter, drop};
ghost use Rattle.us_expr.specs.Range.{IsNear};
ghost use Rattle.us_format.specs.Program.{plain_shape};
ghost use Rattle.us_format.specs.Declaration.{LevelColumn, ValueColumn};
ghost use Rattle.us_format.specs.Coordinates.{span as span_of};
ghost use Rattle.us_format.specs.Packs.{CellsOf, PosOf, level_pieces, is_packed, own_pieces};
ghost use Rattle.us_format.specs.Reading.{own_place, pack_place, extent_tests, extents_in};
ghost use Rattle.us_judge.specs.Buffers.{is_own};
ghost use Rattle.us_judge.specs.Format.{part_at, range_with};
ghost use Rattle.us_judge.specs.Short.{IsShort};
ghost use Rattle.us_judge.specs.Views.{column_of, plain_part, plain_body, declaration_of};
ghost use Rattle.us_matrix.specs.Map.{IsSide};
ghost use Rattle.us_climb.specs.Layout.{place_in, level_layout, IsLayout, first_failing};
ghost use Rattle.us_climb.specs.Own.{AreOwnFrom, IsAccepted, IsPartOf};

use crate::extents::extents_of;
use crate::packs::{begins_some, column_in, pack_with};
use crate::queries::first_own;
use arrayvec::ArrayVec;
use us_decl::{Column, Part};
use us_expr::Range;
use us_format::Kind;
use us_judge::{Format, own_of_level};
use us_matrix::{Buffers, Shape};

/// Where the cells of a column stand: cell `x` is cell `x * columns + column` of the buffer.
#[derive(Clone, Copy, Debug, Default, PartialEq, Eq)]
pub struct ColumnPlace {
    /// The number of the buffer.
    pub buffer: usize,
    /// The number of the column among those of the buffer.
    pub column: usize,
    /// How many columns the buffer has.
    pub columns: usize,
    /// Whether a pack begins with the column.
    pub begins: bool,
}

/// The kind and the size of a level, and where its pieces stand.
#[derive(Clone, Copy, Debug, PartialEq, Eq)]
pub struct LevelLayout {
    /// The kind.
    pub kind: Kind,
    /// How many coordinates there are.
    pub size: u64,
    /// The number of the buffer of the starts, for a level that has them.
    pub starts: usize,
    /// The place of the coordinates, for a level that has them.
    pub cells: ColumnPlace,
}

/// The levels of a part, and the place of its values.
#[derive(Debug, Drop)]
pub struct Layout {
    /// The levels in order.
    pub levels: ArrayVec<LevelLayout, 6>,
    /// The place of the values.
    pub values: ColumnPlace,
}

impl Default for LevelLayout {
    fn default() -> LevelLayout {
        LevelLayout {
            kind: Kind::Full,
            size: 0,
            starts: 0,
            cells: ColumnPlace::default(),
        }
    }
}

/// The place of a column, which is in a pack or in a buffer of its own, the number of which is `own` in the part. The first
/// buffer of the part has the number `first`.
fn column_place(
    part: &Part,
    first: usize,
    first_pack: usize,
    own: usize,
    column: Column,
) -> ColumnPlace
    requires base { first < 2 ^ 32 }
    requires first { first_pack ≡ pack_place (plain_part part.now) 0 }
    requires room { first_pack + length part.now.packs < 2 ^ 32 }
    requires own_few { own < 2 ^ 32 }
    requires own { is_packed (plain_part part.now) (CellsOf (column_of column)) ≡ false → own ≡ own_place (plain_part part.now) (CellsOf (column_of column)) }
    ensures { result ≡ place_in first (plain_part part.now) (column_of column) }
{
    let begins = begins_some(part, column);
    match pack_with(part, column) {
        Some(pack) => {
            let columns = &part.packs.as_slice()[pack];
            ColumnPlace {
                buffer: first + first_pack + pack,
                column: column_in(columns, column),
                columns: columns.len(),
                begins,
            }
        }
        None => ColumnPlace {
            buffer: first + own,
            column: 0,
            columns: 1,
            begins,
        },
    }
}

/// The place of no column.
fn no_place() -> ColumnPlace
    ensures { result ≡ record { buffer = 0; column = 0; columns = 1; begins = false } }
{
    ColumnPlace {
        buffer: 0,
        column: 0,
        columns: 1,
        begins: false,
    }
}

/// How many coordinates a level has whose values have this range.
fn span(range: Range) -> u64
    requires lo { IsNear (2 ^ 37) range.lo }
    requires hi { IsNear (2 ^ 37) range.hi }
    ensures value { result ≡ span_of range }
    ensures narrow { result < 2 ^ 63 }
{
    let count = range.hi + 1 - range.lo;
    if count < 0 { 0 } else { count.unsigned_abs() }
}

/// The layout of a level of this kind and size. `own` is the number in the part of the next buffer that no pack has.
fn level_layout(
    part: &Part,
    level: usize,
    size: u64,
    kind: Kind,
    own: usize,
    first_pack: usize,
    first: usize,
) -> LevelLayout
    requires base { first < 2 ^ 32 }
    requires first { first_pack ≡ pack_place (plain_part part.now) 0 }
    requires room { first_pack + length part.now.packs < 2 ^ 32 }
    requires level { level ≤ 16 }
    requires own_few { own ≤ 1000 }
    requires own { AreOwnFrom (plain_part part.now) own level kind }
    ensures { result ≡ level_layout first (plain_part part.now) level size kind }
{
    let column = Column::Level(level as u32);
    match kind {
        Kind::Full => LevelLayout {
            kind,
            size,
            starts: 0,
            cells: no_place(),
        },
        Kind::Compressed | Kind::Listed => LevelLayout {
            kind,
            size,
            starts: first + own,
            cells: column_place(part, first, first_pack, own + 1, column),
        },
        Kind::Slot => LevelLayout {
            kind,
            size,
            starts: 0,
            cells: column_place(part, first, first_pack, own, column),
        },
    }
}

/// How many coordinates a level of a format's part has, the queries of which have these extents.
fn level_size(format: &Format, part: usize, level: usize, extents: &[u64], shape: Shape) -> u64
    requires accepted { IsAccepted format.now }
    requires from_one { 1 ≤ part }
    requires part { part ≤ length (declaration_of format.now).parts }
    requires level { level < length (part_at (declaration_of format.now) (part - 1)).levels }
    requires rows { shape.rows < 2 ^ 31 }
    requires cols { shape.cols < 2 ^ 31 }
    requires extents { All (λ n. n ≤ 2 ^ 31) extents.now }
    ensures value { result ≡ span_of (range_with (plain_shape shape) extents.now (declaration_of format.now) (part - 1) level) }
    ensures narrow { result < 2 ^ 63 }
{
    span(format.level_range(part, level, extents, shape.rows, shape.cols))
}

/// The layout of the part with this number, the packs of which have the buffers from `first_pack` on.
fn layout_of(
    format: &Format,
    number: usize,
    part: &Part,
    extents: &[u64],
    shape: Shape,
    first_pack: usize,
    first: usize,
) -> Layout
    requires base { first < 2 ^ 32 }
    requires from_one { 1 ≤ number }
    requires part { IsPartOf format.now (number - 1) (plain_part part.now) }
    requires first { first_pack ≡ pack_place (plain_part part.now) 0 }
    requires room { first_pack + length part.now.packs < 2 ^ 32 }
    requires rows { shape.rows < 2 ^ 31 }
    requires cols { shape.cols < 2 ^ 31 }
    requires extents { All (λ n. n ≤ 2 ^ 31) extents.now }
    ensures { IsLayout first (plain_shape shape) extents.now (plain_part part.now) result }
{
    let mut levels = ArrayVec::new();
    let mut own = first_own(part);
    for level in 0..part.levels.len() {
        let kind = format.kind(number, level);
        let size = level_size(format, number, level, extents, shape);
        levels.push(level_layout(part, level, size, kind, own, first_pack, first));
        own += own_of_level(part, kind, level);
    }
    let values = column_place(part, first, first_pack, own, Column::Val);
    Layout { levels, values }
}

impl Layout {
    /// The layout of the part with this number, counted from 1, for a matrix of this shape. The queries of the part have these
    /// extents, 0 of one that has none. The first buffer of the part has the number `first`.
    pub fn of(format: &Format, number: usize, first: usize, extents: &[u64], shape: Shape) -> Layout
        requires base { first < 2 ^ 32 }
        requires from_one { 1 ≤ number }
        requires part { number ≤ length (declaration_of format.now).parts }
        requires rows { IsSide shape.rows }
        requires cols { IsSide shape.cols }
        requires extents { All (λ n. n ≤ 2 ^ 31) extents.now }
        ensures { IsLayout first (plain_shape shape) extents.now (part_at (declaration_of format.now) (number - 1)) result }
    {
        let part = format.part(number);
        let first_pack = format.part_buffers(number) - part.packs.len();
        layout_of(format, number, part, extents, shape, first_pack, first)
    }

    /// The layout of the part with this number, whose first buffer has the number `first`, by the extents among its buffers.
    pub fn read(
        format: &Format,
        number: usize,
        first: usize,
        shape: Shape,
        buffers: &Buffers,
    ) -> Layout
        requires from_one { 1 ≤ number }
        requires part { number ≤ length (declaration_of format.now).parts }
        requires base { first < 2 ^ 32 }
        requires rows { IsSide shape.rows }
        requires cols { IsSide shape.cols }
        requires extents { first_failing (extent_tests first buffers.now (part_at (declaration_of format.now) (number - 1)).queries) ≡ None }
        ensures { IsLayout first (plain_shape shape) (extents_in first buffers.now (part_at (declaration_of format.now) (number - 1)).queries)
            (part_at (declaration_of format.now) (number - 1)) result }
    {
        let extents = extents_of(format.part(number), first, buffers);
        Layout::of(format, number, first, extents.as_slice(), shape)
    }
}

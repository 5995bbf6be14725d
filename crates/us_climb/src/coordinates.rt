//! The coordinate of a position, and the entry whose value stands there.
ghost use Rattle.std.specs.Prelude.{◌≡◌, ◌≤◌, ◌-◌, ℤ, pos, length, true, Some, None, MatchOption, IfSome};
ghost use Rattle.us_format.specs.Matrix.{in_shape};
ghost use Rattle.us_format.specs.Program.{plain_shape, plain_entry};
ghost use Rattle.us_format.specs.Reading.{fits};
ghost use Rattle.us_invert.specs.Recovery.{cell_of};
ghost use Rattle.us_judge.specs.Views.{declaration_of};
ghost use Rattle.us_matrix.specs.Map.{IsSide};
ghost use Rattle.us_climb.specs.Readers.{IsReady, entry_at, indices_at, value_of};
ghost use Rattle.us_climb.specs.Entries.{entry_in, entry_of, value_at, plain_position};

use crate::climbing::climb_from;
use crate::extents::first_buffer;
use crate::found::{Found, Position};
use crate::layout::Layout;
use crate::reader::Reader;
use arrayvec::ArrayVec;
use us_invert::Cell;
use us_judge::Format;
use us_matrix::{Buffers, Shape, Triple};

/// The indices that are recovered at a position, in the shape or not. The memory that is given is used for the coordinates at
/// the levels and the values of the plan's steps.
fn recovered_at(
    reader: &Reader,
    x: usize,
    values: &mut ArrayVec<i64, 6>,
    kept: &mut ArrayVec<i64, 706>,
) -> Option<Cell>
    requires { IsReady reader.now }
    ensures { cell_of result ≡ indices_at reader.now x }
{
    let levels = reader.layout.levels.as_slice();
    climb_from(levels, reader.parents, reader.tables.buffers, x, values)?;
    reader
        .plan
        .recover_with(values, &reader.ranges, &reader.tables, kept)
}

/// The coordinate, if it is in the shape.
fn inside(shape: Shape, cell: Cell) -> Option<Cell>
    ensures { (v : ℤ) → in_shape (plain_shape shape) (pos cell.i, pos cell.j) v ≡ entry_of result v }
{
    if cell.i < shape.rows && cell.j < shape.cols {
        Some(cell)
    } else {
        None
    }
}

/// The coordinate of a position, if it is recovered and in the shape.
fn cell_at(
    reader: &Reader,
    x: usize,
    values: &mut ArrayVec<i64, 6>,
    kept: &mut ArrayVec<i64, 706>,
) -> Option<Cell>
    requires { IsReady reader.now }
    ensures { entry_at reader.now x ≡ entry_of result (value_of reader.now x) }
{
    match recovered_at(reader, x, values, kept) {
        Some(cell) => inside(reader.shape, cell),
        None => None,
    }
}

/// The entry at a position whose value is `v`.
pub fn found_at(
    reader: &Reader,
    x: usize,
    v: i64,
    values: &mut ArrayVec<i64, 6>,
    kept: &mut ArrayVec<i64, 706>,
) -> Option<Found>
    requires reader { IsReady reader.now }
    requires value { v ≡ value_of reader.now x }
    ensures entry { MatchOption result (entry_at reader.now x ≡ None) (λ f. entry_at reader.now x ≡ Some (plain_entry f.triple)) }
    ensures position { IfSome result (λ f. plain_position f.position ≡ (reader.now.number - 1, x)) }
    ensures value { IfSome result (λ f. f.triple.v ≡ v) }
{
    let cell = cell_at(reader, x, values, kept)?;
    Some(Found {
        position: Position {
            part: reader.number - 1,
            x,
        },
        triple: Triple {
            i: cell.i,
            j: cell.j,
            v,
        },
    })
}

/// The coordinate of a position after the last level of a part of buffers that fit; the parts are counted from 1, the positions
/// from 0. It is none exactly where the climb or the recovery fails, or the coordinate is out of the shape.
pub fn climb(
    format: &Format,
    shape: Shape,
    buffers: &Buffers,
    part: usize,
    x: usize,
) -> Option<Cell>
    requires rows { IsSide shape.rows }
    requires cols { IsSide shape.cols }
    requires fitting { fits (plain_shape shape) (declaration_of format.now) buffers.now ≡ true }
    requires from_one { 1 ≤ part }
    requires part { part ≤ length (declaration_of format.now).parts }
    ensures { entry_in (plain_shape shape) (declaration_of format.now) buffers.now (part - 1, x)
        ≡ entry_of result (value_at (plain_shape shape) (declaration_of format.now) buffers.now (part - 1, x)) }
{
    let first = first_buffer(format, part);
    let layout = Layout::read(format, part, first, shape, buffers);
    let reader = Reader::of(format, part, first, shape, buffers, layout, &[]);
    let mut values = ArrayVec::new();
    let mut kept = ArrayVec::new();
    cell_at(&reader, x, &mut values, &mut kept)
}

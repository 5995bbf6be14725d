//! The entries of all positions.
ghost use Rattle.std.specs.Prelude.{◌≡◌, ◌-◌, ◌≤◌, true, length, map, All, IfOk, FitsSigned};
ghost use Rattle.std.proofs.Common.{w64};
ghost use Rattle.us_format.specs.Matrix.{is_zero};
ghost use Rattle.us_format.specs.Program.{plain_shape};
ghost use Rattle.us_format.specs.Reading.{fits};
ghost use Rattle.us_judge.specs.Views.{declaration_of};
ghost use Rattle.us_matrix.specs.Map.{IsSide};
ghost use Rattle.us_climb.specs.Entries.{found_to, plain_found, plain_read, prepend, read_all, read_part};
ghost use Rattle.us_climb.specs.Readers.{IsReady};

use crate::cells::{column_cell, column_len};
use crate::coordinates::found_at;
use crate::extents::first_buffer;
use crate::found::{Found, Position, ReadEntries};
use crate::layout::Layout;
use crate::parents::parents_of;
use crate::reader::Reader;
use arrayvec::ArrayVec;
use std::alloc::{AllocError, Global};
use us_judge::Format;
use us_matrix::{Buffers, Shape};

fn is_zero(v: i64) -> bool
    ensures { result ≡ is_zero v }
{
    v == 0
}

/// Puts the entries of a part at the end of others, up to the first position that has no coordinate in the shape, which is the
/// answer.
fn read_positions(reader: &Reader, found: &mut Vec<Found>) -> Result<Option<Position>, AllocError>
    requires ready { IsReady reader.now }
    requires fits { All (λ f. FitsSigned w64 f.triple.v) found.old.items }
    ensures read { IfOk result (λ failed. found_to found.new.items failed
        ≡ prepend (map plain_found found.old.items)
        (read_part (plain_shape reader.now.shape) (declaration_of reader.now.format.now) reader.now.tables.buffers.now (reader.now.number - 1))) }
    ensures fits { IfOk result (λ _. All (λ f. FitsSigned w64 f.triple.v) found.new.items) }
{
    let mut values = ArrayVec::new();
    let mut kept = ArrayVec::new();
    for x in 0..column_len(&reader.layout.values, reader.tables.buffers) {
        let v = column_cell(&reader.layout.values, reader.tables.buffers, x);
        if !is_zero(v) {
            match found_at(reader, x, v, &mut values, &mut kept) {
                Some(one) => found.push(one)?,
                None => {
                    let part = reader.number - 1;
                    return Ok(Some(Position { part, x }));
                }
            }
        }
    }
    Ok(None)
}

/// Puts the entries of the part with this number, counted from 1, at the end of others, up to the first position that has no
/// coordinate in the shape, which is the answer.
fn read_part(
    alloc: Global,
    format: &Format,
    number: usize,
    shape: Shape,
    buffers: &Buffers,
    found: &mut Vec<Found>,
) -> Result<Option<Position>, AllocError>
    requires rows { IsSide shape.rows }
    requires cols { IsSide shape.cols }
    requires fitting { fits (plain_shape shape) (declaration_of format.now) buffers.now ≡ true }
    requires from_one { 1 ≤ number }
    requires part { number ≤ length (declaration_of format.now).parts }
    requires fits { All (λ f. FitsSigned w64 f.triple.v) found.old.items }
    ensures read { IfOk result (λ failed. found_to found.new.items failed
        ≡ prepend (map plain_found found.old.items) (read_part (plain_shape shape) (declaration_of format.now) buffers.now (number - 1))) }
    ensures fits { IfOk result (λ _. All (λ f. FitsSigned w64 f.triple.v) found.new.items) }
{
    let first = first_buffer(format, number);
    let layout = Layout::read(format, number, first, shape, buffers);
    let parents = parents_of(alloc, &layout, buffers)?;
    let reader = Reader::of(format, number, first, shape, buffers, layout, &parents);
    read_positions(&reader, found)
}

/// All positions with a value that isn't 0, by part and then in order, with their entries, up to the first that has no
/// coordinate in the shape.
pub fn read_entries(
    alloc: Global,
    format: &Format,
    shape: Shape,
    buffers: &Buffers,
) -> Result<ReadEntries, AllocError>
    requires rows { IsSide shape.rows }
    requires cols { IsSide shape.cols }
    requires fitting { fits (plain_shape shape) (declaration_of format.now) buffers.now ≡ true }
    ensures read { IfOk result (λ r. plain_read r ≡ read_all (plain_shape shape) (declaration_of format.now) buffers.now) }
    ensures fits { IfOk result (λ r. All (λ f. FitsSigned w64 f.triple.v) r.found.items) }
{
    let mut found = Vec::new(alloc);
    for part in 0..format.parts() {
        let failed = read_part(alloc, format, part + 1, shape, buffers, &mut found)?;
        if failed.is_some() {
            return Ok(ReadEntries { found, failed });
        }
    }
    Ok(ReadEntries {
        found,
        failed: None,
    })
}

//! Comparing lists of cells with buffers.
ghost use Rattle.std.specs.Prelude.{◌≡◌, ◌<◌, ◌≤◌, ◌+◌, ◌^◌, map, length, take, None, IfOk};
ghost use Rattle.std.specs.Ordering.{int_eq};
ghost use Rattle.us_format.specs.Lists.{cell, nth};
ghost use Rattle.us_judge.specs.Views.{plain_part};
ghost use Rattle.us_layout.specs.Arranging.{HaveOneLengthEach, plain_piece};
ghost use Rattle.us_levels.specs.Lists.{list_difference, lists_difference, own_count, own_difference, packs_difference};

use crate::differing::Difference;
use std::alloc::{AllocError, Global};
use us_decl::{Pack, Part};
use us_layout::{Piece, is_packed, pack_cells};
use us_matrix::Buffers;

/// Cell x of a list.
fn cell_at(cells: &[i64], x: usize) -> i64
    requires { x < length cells.now }
    ensures { result ≡ cell cells.now x }
{
    cells[x]
}

/// Whether two numbers are equal.
fn is_equal(a: i64, b: i64) -> bool
    ensures { result ≡ int_eq a b }
{
    a == b
}

/// Where a buffer with the cells `have` differs from the cells `want`.
pub(crate) fn list_difference(buffer: u64, have: &[i64], want: &[i64]) -> Option<Difference>
    ensures { result ≡ list_difference buffer want.now have.now }
{
    let common = have.len().min(want.len());
    for x in 0..common {
        let (old, new) = (cell_at(have, x), cell_at(want, x));
        if !is_equal(old, new) {
            return Some(Difference::Cell {
                buffer,
                x: x as u64,
                have: old,
                want: new,
            });
        }
    }
    if have.len() != want.len() {
        return Some(Difference::Long {
            buffer,
            have: have.len() as u64,
            want: want.len() as u64,
        });
    }
    None
}

/// The cells of the buffer with this number, none where there is no such buffer.
fn cells_of(buffers: &Buffers, place: usize) -> &[i64]
    ensures { result.now ≡ nth buffers.now place }
{
    if place < buffers.count() {
        buffers.list(place)
    } else {
        &[]
    }
}

/// Where a buffer differs from the cells that it should have.
fn buffer_difference(buffers: &Buffers, place: usize, want: &[i64]) -> Option<Difference>
    ensures { result ≡ list_difference place want.now (nth buffers.now place) }
{
    list_difference(place as u64, cells_of(buffers, place), want)
}

/// The first difference of the buffers from lists, the first of which is that of the buffer with this place.
pub(crate) fn lists_difference(
    lists: &Buffers,
    first: usize,
    buffers: &Buffers,
) -> Option<Difference>
    requires room { first + length lists.now < 2 ^ 64 }
    ensures { result ≡ lists_difference first lists.now buffers.now }
{
    for k in 0..lists.count() {
        let found = buffer_difference(buffers, first + k, lists.list(k));
        if found.is_some() {
            return found;
        }
    }
    None
}

/// How many of some pieces no pack has.
fn own_count(part: &Part, names: &[Piece]) -> usize
    ensures { result ≡ own_count (plain_part part.now) (map plain_piece names.now) }
{
    let mut count = 0;
    for name in names {
        if !is_packed(part, *name) {
            count += 1;
        }
    }
    count
}

/// The first difference of the buffers from `base` on from the lists of the pieces that no pack has, where the lists in
/// front of `first` don't differ.
pub(crate) fn own_difference(
    part: &Part,
    names: &[Piece],
    lists: &Buffers,
    first: usize,
    base: usize,
    buffers: &Buffers,
) -> Option<Difference>
    requires first { first ≤ length lists.now }
    requires few { length lists.now ≤ length names.now }
    requires names { length names.now < 2 ^ 62 }
    requires room { base < 2 ^ 62 }
    ensures { own_difference base (plain_part part.now) (map plain_piece names.now) (take first lists.now) buffers.now ≡ None
        → result ≡ own_difference base (plain_part part.now) (map plain_piece names.now) lists.now buffers.now }
{
    let before = own_count(part, &names[..first]);
    let mut place = base + before;
    for k in first..lists.count() {
        if is_packed(part, names[k]) {
            continue;
        }
        let found = buffer_difference(buffers, place, lists.list(k));
        if found.is_some() {
            return found;
        }
        place += 1;
    }
    None
}

/// The first difference of the buffers from the packs, the first of which has this place, where the lists of the pieces
/// are known.
fn packs_difference(
    alloc: Global,
    packs: &[Pack],
    first: usize,
    names: &[Piece],
    lists: &Buffers,
    buffers: &Buffers,
) -> Result<Option<Difference>, AllocError>
    requires room { first + length packs.now < 2 ^ 64 }
    requires packs { HaveOneLengthEach (map plain_piece names.now) lists.now packs.now }
    ensures { IfOk result (λ d. d ≡ packs_difference first (map plain_piece names.now) lists.now packs.now buffers.now) }
{
    let mut place = first;
    for pack in packs {
        let cells = pack_cells(alloc, names, lists, pack)?;
        let found = buffer_difference(buffers, place, &cells);
        if found.is_some() {
            return Ok(found);
        }
        place += 1;
    }
    Ok(None)
}

/// The first difference of the buffers from the packs of a part, where the lists of its pieces are known. The buffers of
/// the pieces that no pack has stand in front of them, from `base` on.
pub(crate) fn pack_difference(
    alloc: Global,
    part: &Part,
    names: &[Piece],
    lists: &Buffers,
    base: usize,
    buffers: &Buffers,
) -> Result<Option<Difference>, AllocError>
    requires few { length names.now < 2 ^ 62 }
    requires room { base < 2 ^ 62 }
    requires packs { HaveOneLengthEach (map plain_piece names.now) lists.now part.now.packs }
    ensures { IfOk result (λ d. let first = base + own_count (plain_part part.now) (map plain_piece names.now) in
        d ≡ packs_difference first (map plain_piece names.now) lists.now part.now.packs buffers.now) }
{
    let own = own_count(part, names);
    let first = base + own;
    packs_difference(alloc, part.packs.as_slice(), first, names, lists, buffers)
}

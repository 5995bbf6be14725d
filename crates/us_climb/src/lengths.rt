//! Whether the number and the lengths of buffers fit a format, and whether they are within the limit.
ghost use Rattle.std.specs.Prelude.{◌≡◌, ◌+◌, ◌-◌, ◌*◌, ◌<◌, ◌≤◌, ◌^◌, ℕ, All, [], ◌∷◌, ◌++◌, None, drop, length, min, not, nat_eq, nat_le, true, MatchOption};
ghost use Rattle.std.specs.List.{sum, sum_by};
ghost use Rattle.us_format.specs.Lists.{when};
ghost use Rattle.us_format.specs.Program.{plain_shape};
ghost use Rattle.us_format.specs.Reading.{all_counts_in, all_tests, extent_tests, fits, limit, misfit, part_counts_in, size_in};
ghost use Rattle.us_judge.specs.Format.{part_at};
ghost use Rattle.us_judge.specs.Views.{declaration_of};
ghost use Rattle.us_matrix.specs.Map.{IsSide};
ghost use Rattle.us_climb.specs.Layout.{IsInside, AreSound, count_by, counts_by, starts_length, column_length, column_tests, tests_by, walk_by, first_failing, levels_failing, stored_failing, part_failing};

use crate::cells::{column_len, list_at};
use crate::extents::{extents_misfit, extents_of, tables_misfit};
use crate::layout::{ColumnPlace, Layout, LevelLayout};
use crate::queries::extent_count;
use us_format::Kind;
use us_judge::Format;
use us_matrix::{Buffers, Shape};

/// The number that stands for all greater numbers of positions: no list is so long.
const MANY: u128 = 1 << 64;

/// The limit of a size.
const LIMIT: u64 = 67108864;

/// How many positions there are after a level, where there are `count` before it, in both numbers at most `MANY`.
fn count_after(level: &LevelLayout, buffers: &Buffers, count: u128) -> u128
    requires inside { IsInside level.now.cells }
    requires few { count ≤ 2 ^ 64 }
    ensures counted { (n : ℕ) → count ≡ min n (2 ^ 64) → result ≡ min (count_by level.now buffers.now n) (2 ^ 64) }
    ensures few { result ≤ 2 ^ 64 }
{
    match level.kind {
        Kind::Full => (count * u128::from(level.size)).min(MANY),
        Kind::Compressed | Kind::Listed => column_len(&level.cells, buffers) as u128,
        Kind::Slot => count,
    }
}

/// The buffer, if it is not as long as the number of positions.
fn length_misfit(buffer: usize, len: usize, count: u128) -> Option<u64>
    ensures { (n : ℕ) → count ≡ min n (2 ^ 64) → result ≡ when (not (nat_eq len n)) buffer }
{
    if len as u128 == count {
        None
    } else {
        Some(buffer as u64)
    }
}

/// The buffer of a column, if a pack begins with the column and its length is no multiple of its number of columns.
fn pack_misfit(place: &ColumnPlace, buffers: &Buffers) -> Option<u64>
    requires { IsInside place.now }
    ensures { result ≡ first_failing (column_tests place.now buffers.now) }
{
    if place.begins && list_at(buffers, place.buffer).len() % place.columns != 0 {
        Some(place.buffer as u64)
    } else {
        None
    }
}

/// The buffer of the starts, if they are not one more than the number of positions.
fn starts_misfit(buffer: usize, buffers: &Buffers, count: u128) -> Option<u64>
    requires { count ≤ 2 ^ 64 }
    ensures { (n : ℕ) → count ≡ min n (2 ^ 64) → result ≡ first_failing (starts_length buffer buffers.now n ∷ []) }
{
    length_misfit(
        buffer,
        list_at(buffers, buffer).len(),
        (count + 1).min(MANY),
    )
}

/// The buffer of a column, if it begins a pack that is not whole, or is not as long as the number of positions.
fn column_misfit(place: &ColumnPlace, buffers: &Buffers, count: u128) -> Option<u64>
    requires { IsInside place.now }
    ensures { (n : ℕ) → count ≡ min n (2 ^ 64) → result ≡ first_failing (column_tests place.now buffers.now ++ column_length place.now buffers.now n ∷ []) }
{
    match pack_misfit(place, buffers) {
        None => length_misfit(place.buffer, column_len(place, buffers), count),
        found => found,
    }
}

/// The first buffer of a level that doesn't fit, where there are `count` positions before it.
fn level_misfit(level: &LevelLayout, buffers: &Buffers, count: u128) -> Option<u64>
    requires inside { IsInside level.now.cells }
    requires few { count ≤ 2 ^ 64 }
    ensures { (n : ℕ) → count ≡ min n (2 ^ 64) → result ≡ first_failing (tests_by level.now buffers.now n) }
{
    match level.kind {
        Kind::Full => None,
        Kind::Compressed | Kind::Listed => {
            match starts_misfit(level.starts, buffers, count) {
                None => pack_misfit(&level.cells, buffers),
                found => found,
            }
        }
        Kind::Slot => column_misfit(&level.cells, buffers, count),
    }
}

/// The first buffer of the levels and the values that doesn't fit, where there are `count` positions before them.
fn walk_misfit(
    levels: &[LevelLayout],
    values: &ColumnPlace,
    buffers: &Buffers,
    count: u128,
) -> Option<u64>
    requires sound { AreSound levels.now }
    requires inside { IsInside values.now }
    requires few { count ≤ 2 ^ 64 }
    ensures { (n : ℕ) → count ≡ min n (2 ^ 64) → result ≡ first_failing (walk_by levels.now values.now buffers.now n) }
{
    match levels {
        [] => column_misfit(values, buffers, count),
        [level, rest @ ..] => match level_misfit(level, buffers, count) {
            None => walk_misfit(rest, values, buffers, count_after(level, buffers, count)),
            found => found,
        },
    }
}

/// The first buffer of the levels and the values of a part that doesn't fit. The queries of the part have these extents.
fn levels_misfit(
    format: &Format,
    number: usize,
    first: usize,
    extents: &[u64],
    shape: Shape,
    buffers: &Buffers,
) -> Option<u64>
    requires from_one { 1 ≤ number }
    requires part { number ≤ length (declaration_of format.now).parts }
    requires base { first < 2 ^ 31 }
    requires rows { IsSide shape.rows }
    requires cols { IsSide shape.cols }
    requires extents { All (λ n. n ≤ 2 ^ 31) extents.now }
    ensures { result ≡ levels_failing (plain_shape shape) first buffers.now (part_at (declaration_of format.now) (number - 1)) extents.now }
{
    let layout = Layout::of(format, number, first, extents, shape);
    walk_misfit(layout.levels.as_slice(), &layout.values, buffers, 1)
}

/// The first table of a part that doesn't fit, or the first buffer of the levels and the values. The queries of the part have
/// these extents.
fn stored_misfit(
    format: &Format,
    number: usize,
    first: usize,
    extents: &[u64],
    shape: Shape,
    buffers: &Buffers,
) -> Option<u64>
    requires from_one { 1 ≤ number }
    requires part { number ≤ length (declaration_of format.now).parts }
    requires base { first < 2 ^ 31 }
    requires rows { IsSide shape.rows }
    requires cols { IsSide shape.cols }
    requires extents { All (λ n. n ≤ 2 ^ 31) extents.now }
    ensures { result ≡ stored_failing (plain_shape shape) first buffers.now (part_at (declaration_of format.now) (number - 1)) extents.now }
{
    let queries = format.part(number).queries.as_slice();
    let tables = first + extent_count(queries);
    if let Some(buffer) = tables_misfit(queries, extents, tables, shape, buffers) {
        return Some(buffer);
    }
    levels_misfit(format, number, first, extents, shape, buffers)
}

/// The first buffer of a part that doesn't fit: an extent, then a table, then a buffer of the levels and the values. The first
/// buffer of the part has the number `first`.
fn part_misfit(
    format: &Format,
    number: usize,
    first: usize,
    shape: Shape,
    buffers: &Buffers,
) -> Option<u64>
    requires from_one { 1 ≤ number }
    requires part { number ≤ length (declaration_of format.now).parts }
    requires base { first < 2 ^ 31 }
    requires rows { IsSide shape.rows }
    requires cols { IsSide shape.cols }
    ensures { result ≡ part_failing (plain_shape shape) first buffers.now (part_at (declaration_of format.now) (number - 1)) }
{
    let queries = format.part(number).queries.as_slice();
    if let Some(buffer) = extents_misfit(queries, first, buffers) {
        return Some(buffer);
    }
    let extents = extents_of(format.part(number), first, buffers);
    stored_misfit(format, number, first, extents.as_slice(), shape, buffers)
}

/// The first buffer that doesn't fit of the part with this number and those behind it.
fn parts_misfit(
    format: &Format,
    number: usize,
    first: usize,
    shape: Shape,
    buffers: &Buffers,
) -> Option<u64>
    requires from_one { 1 ≤ number }
    requires few { length (declaration_of format.now).parts ≤ 4 }
    requires part { number ≤ length (declaration_of format.now).parts + 1 }
    requires base { first ≤ 81 * number }
    requires rows { IsSide shape.rows }
    requires cols { IsSide shape.cols }
    ensures { result
        ≡ first_failing (all_tests (plain_shape shape) first (drop (number - 1) (declaration_of format.now).parts) (drop first buffers.now)) }
{
    if number > format.parts() {
        return None;
    }
    if let Some(buffer) = part_misfit(format, number, first, shape, buffers) {
        return Some(buffer);
    }
    let behind = first + format.part_buffers(number);
    parts_misfit(format, number + 1, behind, shape, buffers)
}

/// The first buffer whose length doesn't fit a format and the shape of a matrix; where their number is wrong, the lower of
/// the two numbers. It takes no memory.
pub fn misfit(format: &Format, shape: Shape, buffers: &Buffers) -> Option<u64>
    requires rows { IsSide shape.rows }
    requires cols { IsSide shape.cols }
    ensures { result ≡ misfit (plain_shape shape) (declaration_of format.now) buffers.now }
{
    let want = format.buffers();
    let have = buffers.count();
    if have != want {
        return Some(have.min(want) as u64);
    }
    let _ = format.first_part();
    parts_misfit(format, 1, 0, shape, buffers)
}

/// What the lengths of all buffers leave of the limit.
fn left_by_lengths(buffers: &Buffers) -> Option<u64>
    ensures { MatchOption result (limit < sum_by length buffers.now) (λ left. left + sum_by length buffers.now ≡ limit) }
{
    let mut left: u64 = LIMIT;
    for number in 0..buffers.count() {
        left = left.checked_sub(buffers.list(number).len() as u64)?;
    }
    Some(left)
}

/// What the numbers of positions after some levels leave of `left`, where there are `count` before them.
fn counts_left(levels: &[LevelLayout], buffers: &Buffers, count: u128, left: u64) -> Option<u64>
    requires sound { AreSound levels.now }
    requires few { count ≤ 2 ^ 64 }
    ensures { (n : ℕ) → count ≡ min n (2 ^ 64)
        → MatchOption result (left < sum (counts_by levels.now buffers.now n)) (λ rest. rest + sum (counts_by levels.now buffers.now n) ≡ left) }
{
    match levels {
        [] => Some(left),
        [level, rest @ ..] => {
            let after = count_after(level, buffers, count);
            if after > u128::from(left) {
                return None;
            }
            counts_left(rest, buffers, after, left - after as u64)
        }
    }
}

/// What the numbers of positions after the levels of a part leave of `left`.
fn part_left(
    format: &Format,
    number: usize,
    first: usize,
    shape: Shape,
    buffers: &Buffers,
    left: u64,
) -> Option<u64>
    requires from_one { 1 ≤ number }
    requires part { number ≤ length (declaration_of format.now).parts }
    requires base { first < 2 ^ 31 }
    requires rows { IsSide shape.rows }
    requires cols { IsSide shape.cols }
    requires extents { first_failing (extent_tests first buffers.now (part_at (declaration_of format.now) (number - 1)).queries) ≡ None }
    ensures { MatchOption result (left < sum (part_counts_in (plain_shape shape) (part_at (declaration_of format.now) (number - 1)) (drop first buffers.now)))
        (λ rest. rest + sum (part_counts_in (plain_shape shape) (part_at (declaration_of format.now) (number - 1)) (drop first buffers.now)) ≡ left) }
{
    let layout = Layout::read(format, number, first, shape, buffers);
    counts_left(layout.levels.as_slice(), buffers, 1, left)
}

/// Whether the numbers of positions of the part with this number and those behind it add up to at most `left`.
fn parts_within(
    format: &Format,
    number: usize,
    first: usize,
    shape: Shape,
    buffers: &Buffers,
    left: u64,
) -> bool
    requires from_one { 1 ≤ number }
    requires few { length (declaration_of format.now).parts ≤ 4 }
    requires part { number ≤ length (declaration_of format.now).parts + 1 }
    requires base { first ≤ 81 * number }
    requires rows { IsSide shape.rows }
    requires cols { IsSide shape.cols }
    requires fitting { first_failing (all_tests (plain_shape shape) first (drop (number - 1) (declaration_of format.now).parts) (drop first buffers.now))
        ≡ None }
    ensures { result
        ≡ nat_le (all_counts_in (plain_shape shape) (drop (number - 1) (declaration_of format.now).parts) (drop first buffers.now)) left }
{
    if number > format.parts() {
        return true;
    }
    let Some(rest) = part_left(format, number, first, shape, buffers, left) else {
        return false;
    };
    let behind = first + format.part_buffers(number);
    parts_within(format, number + 1, behind, shape, buffers, rest)
}

/// Whether the lengths of buffers that fit and their numbers of positions add up to at most 67108864. It takes no memory.
pub fn is_within_limit(format: &Format, shape: Shape, buffers: &Buffers) -> bool
    requires rows { IsSide shape.rows }
    requires cols { IsSide shape.cols }
    requires fitting { fits (plain_shape shape) (declaration_of format.now) buffers.now ≡ true }
    ensures { result ≡ nat_le (size_in (plain_shape shape) (declaration_of format.now) buffers.now) limit }
{
    let Some(left) = left_by_lengths(buffers) else {
        return false;
    };
    let _ = format.first_part();
    parts_within(format, 1, 0, shape, buffers, left)
}

//! The first difference of given buffers from those of a matrix.
ghost use Rattle.std.specs.Prelude.{◌≡◌, ◌-◌, ◌<◌, ◌≤◌, ◌^◌, All, Some, true, drop, length, map, IfOk};
ghost use Rattle.us_format.specs.Declaration.{query_of};
ghost use Rattle.us_format.specs.Program.{shape_in, entries_in};
ghost use Rattle.us_format.specs.Meaning.{meaning};
ghost use Rattle.us_format.specs.Reading.{limit, fits, size_in};
ghost use Rattle.us_judge.specs.Format.{part_at};
ghost use Rattle.us_judge.specs.Kinds.{kinds_of};
ghost use Rattle.us_judge.specs.Views.{declaration_of, plain_part};
ghost use Rattle.us_variables.specs.Counted.{AreVariables, IsCountable};
ghost use Rattle.us_build.specs.Ways.{IsStartOf};
ghost use Rattle.us_parts.specs.Storable.{IsStorable};
ghost use Rattle.us_levels.specs.Comparable.{AreComparable, IsComparable, IsStoredFrom};
ghost use Rattle.us_levels.specs.Differences.{difference_of, part_difference, parts_difference, stored_difference};

use crate::comparing::{lists_difference, own_difference, pack_difference};
use crate::counting::shares_of;
use std::alloc::{AllocError, Global};
use us_build::Walk;
use us_decl::{Body, Part};
use us_judge::{Format, Kind};
use us_layout::{Shares, pieces_of};
use us_matrix::{Buffers, Matrix};
use us_parts::{push_extents, push_tables, variables_of};
use us_variables::Variables;

/// Where a buffer differs from that of a matrix.
#[derive(Clone, Copy, Debug, PartialEq, Eq)]
pub enum Difference {
    /// Cell `x` of the buffer is `have`, and should be `want`.
    Cell {
        buffer: u64,
        x: u64,
        have: i64,
        want: i64,
    },
    /// All common cells agree, but the buffer has `have` cells, and should have `want`; 2^64 - 1 stands for greater numbers.
    Long {
        buffer: u64,
        have: u64,
        want: u64,
    },
}

/// The walk down the levels of a part whose queries have these variables. Fails only where memory is wanting.
fn walk_of(
    alloc: Global,
    part: &Part,
    kinds: &[Kind],
    variables: &Variables,
    matrix: &Matrix,
) -> Result<Walk, AllocError>
    requires kinds { kinds.now ≡ kinds_of (plain_part part.now) }
    requires storable { IsStorable (plain_part part.now) }
    requires countable { All (λ q. IsCountable (shape_in matrix.now) (query_of q)) part.now.queries }
    requires variables { AreVariables (entries_in matrix.now) (shape_in matrix.now) (map query_of part.now.queries) (length part.now.names) variables.now }
    requires few { length matrix.now.entries ≤ limit }
    ensures { IfOk result (IsStartOf (shape_in matrix.now) (plain_part part.now) (entries_in matrix.now)) }
{
    let levels = part.levels.as_slice();
    let queries = part.queries.as_slice();
    Walk::start(
        alloc,
        levels,
        kinds,
        queries,
        variables,
        matrix.shape(),
        matrix.entries(),
    )
}

/// The first difference of the buffers from `base` on from those of the levels, values and packs of a part: it goes down
/// level by level, and compares each list as soon as it is made. So a list is made only where the buffers in front of it are
/// as they should be.
fn stored_difference(
    alloc: Global,
    part: &Part,
    kinds: &[Kind],
    variables: &Variables,
    matrix: &Matrix,
    base: usize,
    buffers: &Buffers,
) -> Result<Option<Difference>, AllocError>
    requires kinds { kinds.now ≡ kinds_of (plain_part part.now) }
    requires countable { All (λ q. IsCountable (shape_in matrix.now) (query_of q)) part.now.queries }
    requires variables { AreVariables (entries_in matrix.now) (shape_in matrix.now) (map query_of part.now.queries) (length part.now.names) variables.now }
    requires stored { IsStoredFrom base (shape_in matrix.now) (plain_part part.now) (entries_in matrix.now) buffers.now }
    requires room { base < 2 ^ 62 }
    ensures { IfOk result (λ d. d ≡ stored_difference base (shape_in matrix.now) (plain_part part.now) (entries_in matrix.now) buffers.now) }
{
    let names = pieces_of(alloc, kinds)?;
    let mut walk = walk_of(alloc, part, kinds, variables, matrix)?;
    let mut lists = Buffers::new(alloc);
    while !walk.is_done() {
        // The buffers so far agree, so their numbers of positions are the true ones, and within the limit.
        if walk.is_too_long() {
            return Ok(None);
        }
        let first = lists.count();
        walk.step(alloc, &mut lists)?;
        let found = own_difference(part, &names, &lists, first, base, buffers);
        if found.is_some() {
            return Ok(found);
        }
    }
    let first = lists.count();
    lists.push(walk.values(alloc)?)?;
    let found = own_difference(part, &names, &lists, first, base, buffers);
    if found.is_some() {
        return Ok(found);
    }
    pack_difference(alloc, part, &names, &lists, base, buffers)
}

/// The first difference of the buffers from `first` on from those of a part. The tables are made only where the extents
/// are as they should be, so no table is longer than the buffers, and all else only where the tables are.
fn part_difference(
    alloc: Global,
    part: &Part,
    kinds: &[Kind],
    matrix: &Matrix,
    first: usize,
    buffers: &Buffers,
) -> Result<Option<Difference>, AllocError>
    requires kinds { kinds.now ≡ kinds_of (plain_part part.now) }
    requires comparable { IsComparable (shape_in matrix.now) (plain_part part.now) (entries_in matrix.now) (drop first buffers.now) }
    requires room { first < 2 ^ 32 }
    ensures { IfOk result (λ d. d ≡ part_difference first (shape_in matrix.now) (plain_part part.now) (entries_in matrix.now) buffers.now) }
{
    let queries = part.queries.as_slice();
    let variables = variables_of(alloc, part, matrix)?;
    let mut extents = Buffers::new(alloc);
    push_extents(alloc, &mut extents, queries, variables.extents())?;
    let unlike = lists_difference(&extents, first, buffers);
    if unlike.is_some() {
        return Ok(unlike);
    }
    let mut tables = Buffers::new(alloc);
    push_tables(alloc, &mut tables, queries, &variables)?;
    let many = extents.count();
    let second = first + many;
    let found = lists_difference(&tables, second, buffers);
    if found.is_some() {
        return Ok(found);
    }
    let more = tables.count();
    let base = second + more;
    stored_difference(alloc, part, kinds, &variables, matrix, base, buffers)
}

/// The first difference of the buffers from `first` on from those of the part with this number, counted from 1.
fn numbered_difference(
    alloc: Global,
    format: &Format,
    part: usize,
    matrix: &Matrix,
    first: usize,
    buffers: &Buffers,
) -> Result<Option<Difference>, AllocError>
    requires from_one { 1 ≤ part }
    requires part { part ≤ length (declaration_of format.now).parts }
    requires comparable { IsComparable (shape_in matrix.now) (part_at (declaration_of format.now) (part - 1)) (entries_in matrix.now) (drop first buffers.now) }
    requires room { first < 2 ^ 32 }
    ensures { IfOk result (λ d. let p = part_at (declaration_of format.now) (part - 1) in
        d ≡ part_difference first (shape_in matrix.now) p (entries_in matrix.now) buffers.now) }
{
    part_difference(
        alloc,
        format.part(part),
        format.kinds(part),
        matrix,
        first,
        buffers,
    )
}

/// The first difference of the buffers from those of the parts of a format on the matrices of their entries.
fn parts_difference(
    alloc: Global,
    format: &Format,
    shares: &Shares,
    buffers: &Buffers,
) -> Result<Option<Difference>, AllocError>
    requires count { length shares.now ≡ length (declaration_of format.now).parts }
    requires few { length shares.now ≤ 4 }
    requires comparable { AreComparable (declaration_of format.now).parts shares.now buffers.now }
    ensures { IfOk result (λ d. d ≡ parts_difference 0 (declaration_of format.now).parts shares.now buffers.now) }
{
    let mut first = 0;
    for number in 0..shares.count() {
        let matrix = shares.at(number);
        let found = numbered_difference(alloc, format, number + 1, matrix, first, buffers)?;
        if found.is_some() {
            return Ok(found);
        }
        first += format.part_buffers(number + 1);
    }
    Ok(None)
}

/// The first difference of buffers from the format's buffers of a matrix: of the first buffer that differs the first cell, or its length
/// where all common cells agree. The buffers mean the matrix, and they are within the limit; the format's own may be far above it.
pub fn differs(
    alloc: Global,
    format: &Format,
    matrix: &Matrix,
    buffers: &Buffers,
) -> Result<Option<Difference>, AllocError>
    requires fitting { fits (shape_in matrix.now) (declaration_of format.now) buffers.now ≡ true }
    requires within { size_in (shape_in matrix.now) (declaration_of format.now) buffers.now ≤ limit }
    requires means { meaning (shape_in matrix.now) (declaration_of format.now) buffers.now ≡ Some (entries_in matrix.now) }
    ensures { IfOk result (λ d. d ≡ difference_of (shape_in matrix.now) (declaration_of format.now) (entries_in matrix.now) buffers.now) }
{
    let decl = format.decl();
    match &decl.body {
        Body::One(_) => numbered_difference(alloc, format, 1, matrix, 0, buffers),
        Body::Split { head, parts: _ } => {
            let shares = shares_of(alloc, format, head, matrix)?;
            parts_difference(alloc, format, &shares, buffers)
        }
    }
}

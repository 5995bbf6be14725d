//! Sizes, and the plain builder.
ghost use Rattle.std.specs.Prelude.{◌≡◌, ◌+◌, ◌-◌, ◌<◌, ◌≤◌, ◌++◌, Some, All, length, map, min, IfOk, OnOk, IsErrOf};
ghost use Rattle.us_format.specs.Program.{shape_in, entries_in};
ghost use Rattle.us_format.specs.Buffers.{buffers, part_buffers, size};
ghost use Rattle.us_format.specs.Laws.{unpacked_size};
ghost use Rattle.us_format.specs.Meaning.{meaning};
ghost use Rattle.us_format.specs.Packs.{written};
ghost use Rattle.us_format.specs.Reading.{limit};
ghost use Rattle.us_build.specs.declared.fault.BuildFault.TheVariants.{TooLarge};
ghost use Rattle.us_judge.specs.Format.{part_at};
ghost use Rattle.us_judge.specs.Views.{declaration_of};
ghost use Rattle.us_levels.specs.Shared.{lists_of, sizes_of};

use crate::counting::shares_of;
use std::alloc::{AllocError, Global};
use us_build::{BuildFault, LIMIT};
use us_decl::Body;
use us_judge::Format;
use us_layout::Shares;
use us_matrix::{Buffers, Matrix};
use us_parts::{build_part, size_of_part};

/// The size of a part of a format on its entries; the parts are counted from 1. It is 67108865 where it is above the limit.
fn part_size(
    alloc: Global,
    format: &Format,
    part: usize,
    matrix: &Matrix,
) -> Result<u64, AllocError>
    requires from_one { 1 ≤ part }
    requires part { part ≤ length (declaration_of format.now).parts }
    requires few { length matrix.now.entries ≤ limit }
    ensures { let p = part_at (declaration_of format.now) (part - 1) in
        IfOk result (λ n. n ≡ min (unpacked_size (shape_in matrix.now) p (entries_in matrix.now)) (limit + 1)) }
{
    size_of_part(alloc, format.part(part), format.kinds(part), matrix)
}

/// The sizes of the parts of a format on the matrices of their entries, added up; 67108865 where this is above the limit.
fn size_of_parts(alloc: Global, format: &Format, shares: &Shares) -> Result<u64, AllocError>
    requires count { length shares.now ≡ length (declaration_of format.now).parts }
    requires few { All (λ m. length m.entries ≤ limit) shares.now }
    ensures { IfOk result (λ n. n ≡ min (sizes_of (declaration_of format.now).parts shares.now) (limit + 1)) }
{
    let mut total = 0;
    for number in 0..shares.count() {
        let size = part_size(alloc, format, number + 1, shares.at(number))?;
        total = (total + size).min(LIMIT + 1);
    }
    Ok(total)
}

/// Adds the buffers of a part of a format on its entries behind those of the parts before it, which have the size `used`, and
/// answers the size of all of them; the parts are counted from 1. They are too large exactly where this is above the limit
/// of 67108864.
fn push_part(
    alloc: Global,
    lists: &mut Buffers,
    format: &Format,
    part: usize,
    matrix: &Matrix,
    used: u64,
) -> Result<u64, BuildFault>
    requires from_one { 1 ≤ part }
    requires part { part ≤ length (declaration_of format.now).parts }
    requires few { length matrix.now.entries ≤ limit }
    requires used { used ≤ limit }
    ensures built { OnOk result (let p = part_at (declaration_of format.now) (part - 1) in
        lists.new ≡ lists.old ++ map written (part_buffers (shape_in matrix.now) p (entries_in matrix.now))) }
    ensures used { IfOk result (λ n. n ≡ used + unpacked_size (shape_in matrix.now) (part_at (declaration_of format.now) (part - 1)) (entries_in matrix.now)) }
    ensures small { IfOk result (λ n. n ≤ limit) }
    ensures large { let p = part_at (declaration_of format.now) (part - 1) in
        IsErrOf result TooLarge → limit < used + unpacked_size (shape_in matrix.now) p (entries_in matrix.now) }
{
    let kinds = format.kinds(part);
    build_part(alloc, lists, format.part(part), kinds, matrix, used)
}

/// The buffers of a part of a format on its entries; the parts are counted from 1. They are too large exactly where the
/// size of the part is above the limit of 67108864.
fn part_buffers(
    alloc: Global,
    format: &Format,
    part: usize,
    matrix: &Matrix,
) -> Result<Buffers, BuildFault>
    requires from_one { 1 ≤ part }
    requires part { part ≤ length (declaration_of format.now).parts }
    requires few { length matrix.now.entries ≤ limit }
    ensures built { let p = part_at (declaration_of format.now) (part - 1) in
        IfOk result (λ b. b ≡ map written (part_buffers (shape_in matrix.now) p (entries_in matrix.now))) }
    ensures small { OnOk result (unpacked_size (shape_in matrix.now) (part_at (declaration_of format.now) (part - 1)) (entries_in matrix.now) ≤ limit) }
    ensures large { let p = part_at (declaration_of format.now) (part - 1) in
        IsErrOf result TooLarge → limit < unpacked_size (shape_in matrix.now) p (entries_in matrix.now) }
{
    let mut lists = Buffers::new(alloc);
    push_part(alloc, &mut lists, format, part, matrix, 0)?;
    Ok(lists)
}

/// The buffers of the parts of a format on the matrices of their entries, one part after the other. They are too large
/// exactly where the sizes of the parts are above the limit together; each part is measured behind those before it, once,
/// and before its buffers are written.
fn build_parts(alloc: Global, format: &Format, shares: &Shares) -> Result<Buffers, BuildFault>
    requires count { length shares.now ≡ length (declaration_of format.now).parts }
    requires few { All (λ m. length m.entries ≤ limit) shares.now }
    ensures built { IfOk result (λ b. b ≡ lists_of (declaration_of format.now).parts shares.now) }
    ensures small { OnOk result (sizes_of (declaration_of format.now).parts shares.now ≤ limit) }
    ensures large { IsErrOf result TooLarge → limit < sizes_of (declaration_of format.now).parts shares.now }
{
    let mut lists = Buffers::new(alloc);
    let mut used = 0;
    for number in 0..shares.count() {
        let matrix = shares.at(number);
        used = push_part(alloc, &mut lists, format, number + 1, matrix, used)?;
    }
    Ok(lists)
}

/// The size of a format on a matrix: the lengths of all buffers and the numbers of positions after each level, added
/// up; 67108865 where it is above the limit of 67108864. No buffer is written.
pub fn size_of(alloc: Global, format: &Format, matrix: &Matrix) -> Result<u64, AllocError>
    ensures { IfOk result (λ n. n ≡ min (size (shape_in matrix.now) (declaration_of format.now) (entries_in matrix.now)) (limit + 1)) }
{
    let decl = format.decl();
    if matrix.entries().len() as u64 > LIMIT {
        return Ok(LIMIT + 1);
    }
    match &decl.body {
        Body::One(_) => part_size(alloc, format, 1, matrix),
        Body::Split { head, parts: _ } => {
            let shares = shares_of(alloc, format, head, matrix)?;
            size_of_parts(alloc, format, &shares)
        }
    }
}

/// The buffers of a format on a matrix, whose meaning is the matrix. It is too large exactly where the size is above the
/// limit of 67108864.
pub fn build_plain(alloc: Global, format: &Format, matrix: &Matrix) -> Result<Buffers, BuildFault>
    ensures built { IfOk result (λ b. b ≡ buffers (shape_in matrix.now) (declaration_of format.now) (entries_in matrix.now)) }
    ensures means { IfOk result (λ b. meaning (shape_in matrix.now) (declaration_of format.now) b ≡ Some (entries_in matrix.now)) }
    ensures small { OnOk result (size (shape_in matrix.now) (declaration_of format.now) (entries_in matrix.now) ≤ limit) }
    ensures large { IsErrOf result TooLarge → limit < size (shape_in matrix.now) (declaration_of format.now) (entries_in matrix.now) }
{
    let decl = format.decl();
    if matrix.entries().len() as u64 > LIMIT {
        return Err(BuildFault::TooLarge);
    }
    match &decl.body {
        Body::One(_) => part_buffers(alloc, format, 1, matrix),
        Body::Split { head, parts: _ } => {
            let shares = shares_of(alloc, format, head, matrix)?;
            build_parts(alloc, format, &shares)
        }
    }
}

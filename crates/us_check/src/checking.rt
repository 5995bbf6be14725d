//! Checking buffers.
ghost use Rattle.std.specs.Prelude.{◌≡◌, ◌+◌, ◌<◌, ◌≤◌, ◌^◌, Ok, true, IfOk, OnOk, IfErr};
ghost use Rattle.us_matrix.specs.Map.{IsSide};
ghost use Rattle.us_format.specs.Meaning.{collected};
ghost use Rattle.us_format.specs.Program.{plain_shape, shape_in, entries_in};
ghost use Rattle.us_format.specs.Reading.{limit, fits, size_in};
ghost use Rattle.us_format.specs.Rules.{IsLawfulDeclaration};
ghost use Rattle.us_judge.specs.Views.{declaration_of};
ghost use Rattle.us_check.specs.declared.broken.Broken.TheVariants.{Climb, Memory};
ghost use Rattle.us_check.specs.Checks.{IsWellFormedWithin, TellsChecked, TellsFault, checked};

use crate::broken::Broken;
use crate::collecting::matrix_of;
use crate::held::Held;
use crate::repeats::first_repeated;
use std::alloc::Global;
use us_climb::{Position, is_within_limit, misfit, read_entries};
use us_judge::Format;
use us_levels::differs;
use us_matrix::{Buffers, Matrix, Shape};

// Whether the lengths fit, and are within the limit.
fn test_lengths(format: &Format, shape: Shape, buffers: &Buffers) -> Result<(), Broken>
    requires rows { IsSide shape.rows }
    requires cols { IsSide shape.cols }
    ensures fitting { OnOk result (fits (plain_shape shape) (declaration_of format.now) buffers.now ≡ true) }
    ensures within { OnOk result (size_in (plain_shape shape) (declaration_of format.now) buffers.now ≤ limit) }
    ensures fault { IfErr result (λ fault. TellsFault (checked (plain_shape shape) (declaration_of format.now) buffers.now) fault) }
{
    if let Some(buffer) = misfit(format, shape, buffers) {
        return Err(Broken::Lengths { buffer });
    }
    if !is_within_limit(format, shape, buffers) {
        return Err(Broken::TooLarge);
    }
    Ok(())
}

// The fault of a position, whose part is named from 1 on.
fn climb_fault(position: Position) -> Broken
    requires { position.part + 1 < 2 ^ 64 }
    ensures { result ≡ Climb (position.part + 1) position.x }
{
    Broken::Climb {
        part: position.part as u64 + 1,
        x: position.x as u64,
    }
}

// The matrix that buffers within the limit mean, or the first position that has no coordinate of its own.
fn read_matrix(
    alloc: Global,
    format: &Format,
    shape: Shape,
    buffers: &Buffers,
) -> Result<Matrix, Broken>
    requires rows { IsSide shape.rows }
    requires cols { IsSide shape.cols }
    requires fitting { fits (plain_shape shape) (declaration_of format.now) buffers.now ≡ true }
    requires within { size_in (plain_shape shape) (declaration_of format.now) buffers.now ≤ limit }
    ensures shape { IfOk result (λ m. shape_in m ≡ plain_shape shape) }
    ensures read { IfOk result (λ m. collected (plain_shape shape) (declaration_of format.now) buffers.now ≡ Ok (entries_in m)) }
    ensures fault { IfErr result (λ fault. TellsFault (checked (plain_shape shape) (declaration_of format.now) buffers.now) fault) }
{
    // so the number of a part has 64 bits
    let _ = format.parts();
    let read = read_entries(alloc, format, shape, buffers)?;
    if let Some(index) = first_repeated(alloc, &read.found)? {
        return Err(climb_fault(read.found[index].position));
    }
    if let Some(position) = read.failed {
        return Err(climb_fault(position));
    }
    let matrix = matrix_of(alloc, shape, &read.found)?;
    Ok(matrix)
}

// The matrix whose buffers these are, within the limit, or the first reason why there is none.
fn matrix_of_buffers(
    alloc: Global,
    format: &Format,
    shape: Shape,
    buffers: &Buffers,
) -> Result<Matrix, Broken>
    requires rows { IsSide shape.rows }
    requires cols { IsSide shape.cols }
    ensures shape { IfOk result (λ m. shape_in m ≡ plain_shape shape) }
    ensures is { IfOk result (λ m. checked (plain_shape shape) (declaration_of format.now) buffers.now ≡ Ok (entries_in m)) }
    ensures fault { IfErr result (λ fault. TellsFault (checked (plain_shape shape) (declaration_of format.now) buffers.now) fault) }
{
    test_lengths(format, shape, buffers)?;
    let matrix = read_matrix(alloc, format, shape, buffers)?;
    match differs(alloc, format, &matrix, buffers)? {
        Some(difference) => Err(Broken::from(difference)),
        None => Ok(matrix),
    }
}

// The declaration of a format is lawful: it is accepted.
fn is_lawful(format: &Format)
    ensures { IsLawfulDeclaration (declaration_of format.now) }
{
    format.decl();
}

/// The matrix whose buffers in the format these are, held with them, exactly where they are well-formed within the limit; else the
/// first reason why they are not: lengths that don't fit, then the limit, then the first position that has no coordinate of its own,
/// then the first difference.
pub fn check(alloc: Global, format: Format, shape: Shape, buffers: Buffers) -> Result<Held, Broken>
    requires rows { IsSide shape.rows }
    requires cols { IsSide shape.cols }
    ensures well_formed { OnOk result (IsWellFormedWithin (plain_shape shape) (declaration_of format) buffers) }
    ensures refused { IfErr result (λ fault. IsWellFormedWithin (plain_shape shape) (declaration_of format) buffers → fault ≡ Memory) }
    ensures reason { TellsChecked (plain_shape shape) format buffers result }
{
    is_lawful(&format);
    match matrix_of_buffers(alloc, &format, shape, &buffers) {
        Ok(matrix) => Ok(Held::from_parts(format, matrix, buffers)),
        Err(fault) => Err(fault),
    }
}

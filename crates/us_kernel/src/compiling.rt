//! Programs that multiply.

ghost use Rattle.std.specs.Prelude.{◌≡◌, ◌+◌, IfOk};
ghost use Rattle.us_bounds.specs.Verdict.{IsVerified};
ghost use Rattle.us_code.specs.Limits.{KeepsLimits};
ghost use Rattle.us_code.specs.Plain.{program_tree};
ghost use Rattle.us_code.specs.Typing.{TypedProgram};
ghost use Rattle.us_format.specs.Program.{plain_shape};
ghost use Rattle.us_format.specs.Reading.{total_count};
ghost use Rattle.us_judge.specs.Views.{declaration_of};
ghost use Rattle.us_matrix.specs.Map.{IsSide};
ghost use Rattle.us_kernel.specs.Right.{IsRightKernel};

use std::alloc::{AllocError, Global};
use us_bounds::{Verified, verify};
use us_code::{BuildPiece, Fresh, Program};
use us_gen_kernel::accumulate;
use us_judge::Format;
use us_matrix::Shape;

/// How many sources a kernel has: the buffers of the format, and the operand.
fn source_count(from: &Format) -> u32
    ensures { result ≡ total_count (declaration_of from.now) + 1 }
{
    // Its contract tells that the format is valid.
    let _ = from.first_part();
    let count = from.buffers() + 1;
    count as u32
}

/// The program of a kernel.
fn program_of(
    alloc: Global,
    from: &Format,
    shape: Shape,
    columns: u32,
) -> Result<Program, AllocError>
    requires rows { IsSide shape.rows }
    requires cols { IsSide shape.cols }
    ensures { IfOk result (λ p. IsRightKernel (program_tree p) (declaration_of from.now) (plain_shape shape) columns) }
{
    // Its contract tells that the format is valid.
    let _ = from.first_part();
    let mut fresh = Fresh::new();
    let piece = accumulate(alloc, from, shape, columns, &mut fresh)?;
    let BuildPiece { phases, buffers } = piece;
    Ok(Program {
        sources: source_count(from),
        phases,
        give: buffers,
    })
}

/// The check of a program that keeps the rules fails only for want of memory.
fn verified(alloc: Global, program: Program) -> Result<Verified, AllocError>
    requires typed { TypedProgram (program_tree program) }
    requires limits { KeepsLimits (program_tree program) }
    ensures { IfOk result (λ v. v ≡ program) }
{
    match verify(alloc, program) {
        Ok(verified) => Ok(verified),
        Err(_) => Err(AllocError),
    }
}

/// A program that multiplies: from the buffers of every matrix of the shape whose size is within the limit, and the cells of an
/// operand of so many columns, one column after the other, it makes the cells of their product modulo 2^64, one column after
/// the other, in a number of steps in proportion to the size and the products of entries. It fails only for want of memory.
pub fn compile_kernel(
    alloc: Global,
    from: &Format,
    shape: Shape,
    columns: u32,
) -> Result<Verified, AllocError>
    requires rows { IsSide shape.rows }
    requires cols { IsSide shape.cols }
    ensures { IfOk result (λ v. IsRightKernel (program_tree v) (declaration_of from.now) (plain_shape shape) columns) }
{
    let program = program_of(alloc, from, shape, columns)?;
    verified(alloc, program)
}

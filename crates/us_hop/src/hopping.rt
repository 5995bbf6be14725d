//! Hops.
ghost use Rattle.std.specs.Prelude.{◌≡◌, ◌<◌, ◌≤◌, IfOk, OnOk, IsErrOf};
ghost use Rattle.us_code.specs.Plain.{program_tree};
ghost use Rattle.us_format.specs.Buffers.{size};
ghost use Rattle.us_format.specs.Program.{shape_in, entries_in};
ghost use Rattle.us_format.specs.Reading.{limit};
ghost use Rattle.us_judge.specs.Views.{declaration_of};
ghost use Rattle.us_matrix.specs.Map.{IsSide};
ghost use Rattle.us_limits.specs.Orders.{HaveNoOrder};
ghost use Rattle.us_right.specs.Right.{AreAlike, IsRight};
ghost use Rattle.us_hop.specs.declared.fault.HopFault.TheVariants.{TooLarge};
ghost use Rattle.us_hop.specs.Hops.{IsRunOf};

use crate::arriving::{Arrived, arrive};
use crate::fault::HopFault;
use std::alloc::{AllocError, Global};
use us_bounds::Verified;
use us_build::LIMIT;
use us_check::Held;
use us_convert::compile;
use us_judge::Format;
use us_levels::size_of;
use us_matrix::Matrix;

/// What a hop gives.
#[derive(Drop)]
pub struct Hopped {
    /// The matrix in the other format.
    pub held: Held,
    /// The program whose run made its buffers.
    pub code: Verified,
    /// The lengths of its buffers and the numbers of positions after each level, added up.
    pub size: u64,
    /// How many steps the run took.
    pub steps: u64,
}

/// The size of a format on a matrix, where it is within the limit of 67108864.
fn size_within(alloc: Global, format: &Format, matrix: &Matrix) -> Result<u64, HopFault>
    ensures is { IfOk result (λ n. n ≡ size (shape_in matrix.now) (declaration_of format.now) (entries_in matrix.now)) }
    ensures small { IfOk result (λ n. n ≤ limit) }
    ensures large { IsErrOf result TooLarge → limit < size (shape_in matrix.now) (declaration_of format.now) (entries_in matrix.now) }
{
    let size = size_of(alloc, format, matrix)?;
    if size > LIMIT {
        return Err(HopFault::TooLarge);
    }
    Ok(size)
}

/// A program from the format of a held matrix to another, right for every matrix of its shape, without `order` between formats
/// that are alike. It fails only for want of memory.
fn program_to(alloc: Global, held: &Held, to: &Format) -> Result<Verified, AllocError>
    ensures right { IfOk result (λ v. IsRight (program_tree v) (declaration_of held.now.declared) (declaration_of to.now) (shape_in held.now.matrix)) }
    ensures unsorted { IfOk result (λ v. AreAlike (declaration_of held.now.declared) (declaration_of to.now) → HaveNoOrder (program_tree v).phases) }
{
    let shape = held.matrix().shape();
    compile(alloc, held.format(), to, shape)
}

/// The matrix in another format: its buffers are the run of a program on the old ones, and the program is right for both formats and
/// every matrix of the shape. Between formats of one part each, without queries and with the same levels, it has no `order`.
/// It is too large exactly where the size of the other format on the matrix is above the limit of 67108864.
pub fn hop(alloc: Global, held: &Held, to: &Format) -> Result<Hopped, HopFault>
    ensures right { IfOk result (λ h. IsRight (program_tree h.code) (declaration_of held.now.declared) (declaration_of to.now) (shape_in held.now.matrix)) }
    ensures unsorted { IfOk result (λ h. AreAlike (declaration_of held.now.declared) (declaration_of to.now) → HaveNoOrder (program_tree h.code).phases) }
    ensures run { IfOk result (λ h. IsRunOf (program_tree h.code) held.now.buffers h.held.buffers h.steps) }
    ensures format { IfOk result (λ h. h.held.declared ≡ to.now) }
    ensures matrix { IfOk result (λ h. h.held.matrix ≡ held.now.matrix) }
    ensures size { IfOk result (λ h. h.size ≡ size (shape_in held.now.matrix) (declaration_of to.now) (entries_in held.now.matrix)) }
    ensures small { OnOk result (size (shape_in held.now.matrix) (declaration_of to.now) (entries_in held.now.matrix) ≤ limit) }
    ensures large { IsErrOf result TooLarge → limit < size (shape_in held.now.matrix) (declaration_of to.now) (entries_in held.now.matrix) }
{
    let size = size_within(alloc, to, held.matrix())?;
    let code = program_to(alloc, held, to)?;
    let Arrived { held, steps } = arrive(alloc, held, to, &code)?;
    Ok(Hopped {
        held,
        code,
        size,
        steps,
    })
}

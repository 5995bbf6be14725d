//! Products.
ghost use Rattle.std.specs.Prelude.{◌≡◌, ◌≤◌, ◌++◌, [], ◌∷◌, IfOk, length};
ghost use Rattle.us_code.specs.Plain.{program_tree};
ghost use Rattle.us_format.specs.Program.{plain_shape, shape_in, entries_in};
ghost use Rattle.us_gen_product.specs.Dense.{IsDense};
ghost use Rattle.us_judge.specs.Views.{declaration_of};
ghost use Rattle.us_kernel.specs.Right.{IsRightKernel};
ghost use Rattle.us_multiply.specs.Causes.{Explains};
ghost use Rattle.us_multiply.specs.Running.{IsRunOf};

use crate::fault::KernelFault;
use crate::running::{Made, product_of};
use std::alloc::{AllocError, Global};
use us_bounds::Verified;
use us_check::Held;
use us_kernel::compile_kernel;
use us_matrix::{Dense, Shape};

/// What a product gives.
#[derive(Drop)]
pub struct KernelRun {
    /// The product.
    pub dense: Dense,
    /// The program whose run made its cells.
    pub code: Verified,
    /// How many steps the run took.
    pub steps: u64,
}

/// Whether an operand fits a matrix of this shape, and the product is within 33554432 cells.
fn sizes_fit(shape: Shape, x: &Dense) -> Result<(), KernelFault>
    ensures { Explains result (plain_shape shape) x.now }
{
    if x.rows() != shape.cols {
        return Err(KernelFault::Operand {
            have: x.rows(),
            want: shape.cols,
        });
    }
    if u64::from(shape.rows) * u64::from(x.cols()) > 33554432 {
        return Err(KernelFault::TooLarge);
    }
    Ok(())
}

/// A right kernel for a held matrix and so many columns. It fails only for want of memory.
fn kernel_for(alloc: Global, held: &Held, columns: u32) -> Result<Verified, AllocError>
    ensures { IfOk result (λ v. IsRightKernel (program_tree v) (declaration_of held.now.declared) (shape_in held.now.matrix) columns) }
{
    let shape = held.matrix().shape();
    compile_kernel(alloc, held.format(), shape, columns)
}

/// The product of a held matrix and an operand modulo 2^64: its cells are the run of a program on the matrix's buffers and
/// the operand, and the program is a right kernel for the format, every matrix of the shape and as many columns. The operand
/// has at most 33554432 cells. It is refused exactly where its rows aren't as many as the matrix's columns, and else the
/// product exactly where it has more than 33554432 cells.
pub fn kernel(alloc: Global, held: &Held, x: &Dense) -> Result<KernelRun, KernelFault>
    requires { length x.now.cells ≤ 33554432 }
    ensures right { IfOk result (λ r. IsRightKernel (program_tree r.code) (declaration_of held.now.declared) (shape_in held.now.matrix) x.now.cols) }
    ensures run { IfOk result (λ r. IsRunOf (program_tree r.code) (held.now.buffers ++ x.now.cells ∷ []) (r.dense.cells ∷ []) r.steps) }
    ensures rows { IfOk result (λ r. r.dense.rows ≡ held.now.matrix.rows) }
    ensures cols { IfOk result (λ r. r.dense.cols ≡ x.now.cols) }
    ensures dense { IfOk result (λ r. IsDense (shape_in held.now.matrix) (entries_in held.now.matrix) x.now.cols x.now.cells r.dense.cells) }
    ensures causes { Explains result (shape_in held.now.matrix) x.now }
{
    sizes_fit(held.shape(), x)?;
    let code = kernel_for(alloc, held, x.cols())?;
    let Made { dense, steps } = product_of(alloc, held, x, &code)?;
    Ok(KernelRun { dense, code, steps })
}

//! The run of a kernel.
ghost use Rattle.std.specs.Prelude.{◌≡◌, ◌+◌, ◌*◌, ◌≤◌, ◌++◌, [], ◌∷◌, All, IfOk, length, take};
ghost use Rattle.us_code.specs.Plain.{program_tree};
ghost use Rattle.us_format.specs.Program.{shape_in, entries_in};
ghost use Rattle.us_format.specs.Reading.{limit};
ghost use Rattle.us_gen_product.specs.Dense.{IsDense};
ghost use Rattle.us_judge.specs.Views.{declaration_of};
ghost use Rattle.us_kernel.specs.Right.{IsRightKernel};
ghost use Rattle.us_multiply.specs.Running.{AreFactors, Ends, IsRunOf};

use std::alloc::{AllocError, Global};
use us_bounds::Verified;
use us_check::Held;
use us_machine::{Ran, RunStop, run};
use us_matrix::{Buffers, Dense};

/// A product, and how many steps it took.
#[derive(Drop)]
pub(crate) struct Made {
    pub(crate) dense: Dense,
    pub(crate) steps: u64,
}

/// An equal list of lists.
fn copied(alloc: Global, lists: &Buffers) -> Result<Buffers, AllocError>
    ensures { IfOk result (λ b. b ≡ lists.now) }
{
    let mut copies = Buffers::new(alloc);
    for b in 0..lists.count() {
        let cells = lists.list(b).to_vec(alloc)?;
        copies.push(cells)?;
    }
    Ok(copies)
}

/// The buffers of a held matrix, and behind them the cells of an operand, as sources of a program.
fn sources_of(alloc: Global, held: &Held, x: &Dense) -> Result<Buffers, AllocError>
    requires rows { x.now.rows ≡ held.now.matrix.cols }
    requires few { length x.now.cells ≤ 33554432 }
    ensures are { IfOk result (λ b. b ≡ held.now.buffers ++ x.now.cells ∷ []) }
    ensures factors { IfOk result (λ b. AreFactors held.now x.now) }
{
    held.format().decl();
    held.matrix().shape();
    let mut sources = copied(alloc, held.buffers())?;
    let operand = x.cells().to_vec(alloc)?;
    sources.push(operand)?;
    Ok(sources)
}

/// What a program gives that comes to its end on these sources, and its steps. It fails only for want of memory.
fn run_to_end(alloc: Global, code: &Verified, source: &Buffers) -> Result<Ran, AllocError>
    requires count { length source.now ≡ (program_tree code.now).sources }
    requires short { All (λ cells. length cells ≤ limit) source.now }
    requires ends { Ends (program_tree code.now) source.now }
    ensures { IfOk result (λ ran. IsRunOf (program_tree code.now) source.now ran.buffers ran.steps) }
{
    match run(alloc, code, source, None) {
        Ok(ran) => Ok(ran),
        Err(RunStop::Memory) => Err(AllocError),
        Err(RunStop::TooLarge) => unreachable!(),
        Err(RunStop::OutOfSteps) => unreachable!(),
    }
}

/// The product of a held matrix and an operand, whose cells are the run of a right kernel. It fails only for want of memory.
pub(crate) fn product_of(
    alloc: Global,
    held: &Held,
    x: &Dense,
    code: &Verified,
) -> Result<Made, AllocError>
    requires right { IsRightKernel (program_tree code.now) (declaration_of held.now.declared) (shape_in held.now.matrix) x.now.cols }
    requires rows { x.now.rows ≡ held.now.matrix.cols }
    requires few_factors { length x.now.cells ≤ 33554432 }
    requires few { held.now.matrix.rows * x.now.cols ≤ 33554432 }
    ensures run { IfOk result (λ a. IsRunOf (program_tree code.now) (held.now.buffers ++ x.now.cells ∷ []) (a.dense.cells ∷ []) a.steps) }
    ensures rows { IfOk result (λ a. a.dense.rows ≡ held.now.matrix.rows) }
    ensures cols { IfOk result (λ a. a.dense.cols ≡ x.now.cols) }
    ensures dense { IfOk result (λ a. IsDense (shape_in held.now.matrix) (entries_in held.now.matrix) x.now.cols x.now.cells a.dense.cells) }
{
    let sources = sources_of(alloc, held, x)?;
    let Ran { buffers, steps } = run_to_end(alloc, code, &sources)?;
    let cells = buffers.list(0).to_vec(alloc)?;
    let rows = held.shape().rows;
    Ok(Made {
        dense: Dense::new(rows, x.cols(), cells),
        steps,
    })
}

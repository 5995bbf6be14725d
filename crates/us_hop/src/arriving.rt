//! The run of a program from one format to another.
ghost use Rattle.std.specs.Prelude.{◌≡◌, ◌≤◌, All, IfOk, length};
ghost use Rattle.us_code.specs.Plain.{program_tree};
ghost use Rattle.us_format.specs.Buffers.{size};
ghost use Rattle.us_format.specs.Program.{shape_in, entries_in};
ghost use Rattle.us_format.specs.Reading.{limit};
ghost use Rattle.us_judge.specs.Views.{declaration_of};
ghost use Rattle.us_right.specs.Right.{IsRight};
ghost use Rattle.us_hop.specs.Hops.{AreSources, Ends, IsRunOf};

use std::alloc::{AllocError, Global};
use us_bounds::Verified;
use us_check::Held;
use us_judge::Format;
use us_machine::{Ran, RunStop, run};
use us_matrix::Buffers;

/// A matrix that is held in another format, and how many steps it took to come there.
#[derive(Drop)]
pub(crate) struct Arrived {
    pub(crate) held: Held,
    pub(crate) steps: u64,
}

/// The buffers of a held matrix, as sources of a program.
fn sources_of(held: &Held) -> &Buffers
    ensures are { result.now ≡ held.now.buffers }
    ensures sources { AreSources held.now }
{
    held.format().decl();
    held.matrix().shape();
    held.buffers()
}

/// What a program gives that comes to its end on these sources, and its steps. It fails only for want of memory.
fn run_to_end(alloc: Global, code: &Verified, source: &Buffers) -> Result<Ran, AllocError>
    requires count { length source.now ≡ (program_tree code.now).sources }
    requires short { All (λ cells. length cells ≤ limit) source.now }
    requires ends { Ends (program_tree code.now) source.now }
    ensures { IfOk result (λ ran. IsRunOf (program_tree code.now) source.now ran.buffers ran.steps) }
{
    match run(alloc, code, source, None) {
        Ok(ran) => Ok(ran),
        Err(RunStop::Memory) => Err(AllocError),
        Err(RunStop::TooLarge) => unreachable!(),
        Err(RunStop::OutOfSteps) => unreachable!(),
    }
}

/// A held matrix in the format that a right program leads to, whose buffers are the program's run on the old ones.
/// It fails only for want of memory.
pub(crate) fn arrive(
    alloc: Global,
    held: &Held,
    to: &Format,
    code: &Verified,
) -> Result<Arrived, AllocError>
    requires right { IsRight (program_tree code.now) (declaration_of held.now.declared) (declaration_of to.now) (shape_in held.now.matrix) }
    requires small { size (shape_in held.now.matrix) (declaration_of to.now) (entries_in held.now.matrix) ≤ limit }
    ensures run { IfOk result (λ a. IsRunOf (program_tree code.now) held.now.buffers a.held.buffers a.steps) }
    ensures format { IfOk result (λ a. a.held.declared ≡ to.now) }
    ensures matrix { IfOk result (λ a. a.held.matrix ≡ held.now.matrix) }
{
    to.decl();
    let source = sources_of(held);
    let Ran { buffers, steps } = run_to_end(alloc, code, source)?;
    let matrix = held.matrix().copy(alloc)?;
    let format = to.copy(alloc)?;
    Ok(Arrived {
        held: Held::from_parts(format, matrix, buffers),
        steps,
    })
}

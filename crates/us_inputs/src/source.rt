//! The sources of `run` and of the first hop of `convert`: the buffers of a container, or of a matrix file in the built-in format.
ghost use Rattle.std.specs.Prelude.{◌≡◌, ◌∷◌, [], IfErr, IfOk, IfSome};
ghost use Rattle.us_outside.specs.Causes.{NeverFell};
ghost use Rattle.us_outside.specs.Files.{content_of};
ghost use Rattle.us_status.specs.Uses.{reads};
ghost use Rattle.us_inputs.specs.Steps.{OfFile, input_at, map_of};
ghost use Rattle.us_status.specs.Answers.{then_step};
ghost use Rattle.us_inputs.specs.Sources.{held_step};
ghost use Rattle.us_status.specs.Answers.{IsStep, IsRefusal, IsInnerRefusal};
ghost use Rattle.us_inputs.specs.Views.{input_view, source_of};

use crate::input::{Input, read_input};
use std::alloc::Global;
use us_check::Held;
use us_judge::entry_format;
use us_levels::BuildFault;
use us_matrix::Matrix;
use us_outside::Outside;
use us_status::{Slot, Status};

/// The matrix in the file of a slot, held in the format of its container, or in the built-in one.
pub fn read_source<O: Outside>(
    alloc: Global,
    outside: &mut O,
    slot: Slot,
    name: &str,
) -> Result<Held, Status>
    ensures plain { IfSome (O.files outside.old) (λ fs. IsStep (then_step (input_at slot (content_of fs name.now)) held_step) (source_of result)) }
    ensures refusal { IfErr result (IsRefusal (reads slot name.now ∷ []) (O.faults outside.old) (O.faults outside.new)) }
    ensures files { O.files outside.new ≡ O.files outside.old }
    ensures printed { O.printed outside.new ≡ O.printed outside.old }
    ensures later { NeverFell (O.faults outside.old) (O.faults outside.new) }
{
    let input = read_input(alloc, outside, slot, name)?;
    hold(alloc, input)
}

/// An input as it is held: a matrix file in the built-in format, a container in its own.
pub fn hold(alloc: Global, input: Input) -> Result<Held, Status>
    ensures plain { IsStep (held_step (input_view input)) (source_of result) }
    ensures matrix { IfOk result (λ h. h.matrix ≡ map_of (input_view input)) }
    ensures refusal { IfErr result IsInnerRefusal }
{
    match input {
        Input::File(matrix) => hold_entries(alloc, matrix),
        Input::Container(held) => Ok(held),
    }
}

// A matrix in the built-in format.
fn hold_entries(alloc: Global, matrix: Matrix) -> Result<Held, Status>
    ensures plain { IsStep (held_step (OfFile matrix)) (source_of result) }
    ensures matrix { IfOk result (λ h. h.matrix ≡ matrix) }
    ensures refusal { IfErr result IsInnerRefusal }
{
    let format = entry_format(alloc)?;
    let held = match Held::of(alloc, format, matrix) {
        Ok(held) => held,
        Err(BuildFault::TooLarge) => return Err(Status::TooLarge { hop: 0 }),
        Err(BuildFault::Memory) => return Err(Status::Memory),
    };
    // so the buffers are those of the matrix
    let _ = held.buffers();
    Ok(held)
}

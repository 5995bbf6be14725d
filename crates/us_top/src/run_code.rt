//! The command that runs loop code.
ghost use Rattle.std.specs.Prelude.{◌≡◌, ◌∷◌, [], IfErr, IfSome};
ghost use Rattle.us_outside.specs.Causes.{NeverFell};
ghost use Rattle.us_status.specs.declared.status.Slot.TheVariants.{Code, Input};
ghost use Rattle.us_top.specs.Tasks.{run_task};
ghost use Rattle.us_status.specs.Uses.{reads};
ghost use Rattle.us_top.specs.Running.{run_in};
ghost use Rattle.us_status.specs.Answers.{IsAnswer, IsStep, IsRefusal};
ghost use Rattle.us_status.specs.Runs.{IsRunOf, plain_status, told};
ghost use Rattle.us_top.specs.Views.{made_of};

use crate::result::{Made, result_of};
use crate::target::read_target;
use std::alloc::Global;
use us_inputs::read_source;
use us_outside::Outside;
use us_status::{Slot, Status, Store, finish};

/// Runs a unit of loop code on the input's buffers, in at most `budget` steps, stores the container of what it gives, and
/// prints the number of its steps.
pub fn run_code<O: Outside>(
    alloc: Global,
    outside: &mut O,
    code: &str,
    input: &str,
    output: &str,
    budget: u64,
) -> Status
    ensures { IsRunOf (run_task code.now input.now output.now budget)
        (told (O.files outside.old) (O.printed outside.old) (O.faults outside.old))
        (told (O.files outside.new) (O.printed outside.new) (O.faults outside.new)) result }
{
    match prepare(alloc, outside, code, input, budget) {
        Ok(made) => finish(
            outside,
            &[Store::output(output, &made.bytes)],
            Some(&made.lines),
        ),
        Err(status) => status,
    }
}

// What is stored and printed: the code is read and judged, then the input is read, then the code runs.
fn prepare<O: Outside>(
    alloc: Global,
    outside: &mut O,
    code: &str,
    input: &str,
    budget: u64,
) -> Result<Made, Status>
    ensures plain { IfSome (O.files outside.old) (λ fs. IsStep (run_in code.now input.now budget fs) (made_of result)) }
    ensures answer { IfSome (O.files outside.old) (λ fs. IfErr result
        (IsAnswer ((run_task code.now input.now [] budget).reached fs) (plain_status (run_task code.now input.now [] budget) fs))) }
    ensures refusal { IfErr result (IsRefusal (reads Code code.now ∷ reads Input input.now ∷ []) (O.faults outside.old) (O.faults outside.new)) }
    ensures files { O.files outside.new ≡ O.files outside.old }
    ensures printed { O.printed outside.new ≡ O.printed outside.old }
    ensures later { NeverFell (O.faults outside.old) (O.faults outside.new) }
{
    let target = read_target(alloc, outside, Slot::Code, code)?;
    let source = read_source(alloc, outside, Slot::Input, input)?;
    result_of(alloc, target, &source, budget)
}

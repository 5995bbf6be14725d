//! The run of a program.
ghost use Rattle.std.specs.Prelude.{◌≡◌, ◌≤◌, All, length};
ghost use Rattle.us_code.specs.Plain.{program_tree};
ghost use Rattle.us_machine.specs.Answer.{IsAnswer, outcome_of};

use crate::phases::run_phases;
use crate::starting::{given, source_region};
use crate::stop::RunStop;
use crate::tables::Tables;
use std::alloc::Global;
use us_bounds::Verified;
use us_matrix::Buffers;

/// What a run gives.
#[derive(Drop)]
pub struct Ran {
    /// The lists that the program gives, in order.
    pub buffers: Buffers,
    /// How many steps it took, or 18446744073709551615 where there were more.
    pub steps: u64,
}

/// Runs a program on its sources, with at most so many steps where there is a budget.
///
/// There are as many sources as the program says, each of at most 67108864 cells.
pub fn run(
    alloc: Global,
    code: &Verified,
    source: &Buffers,
    budget: Option<u64>,
) -> Result<Ran, RunStop>
    requires count { length source.now ≡ (program_tree code.now).sources }
    requires short { All (λ cells. length cells ≤ 67108864) source.now }
    ensures { IsAnswer result (outcome_of (program_tree code.now) source.now budget) }
{
    let program = code.program();
    let mut tables = Tables::new(alloc, source, budget)?;
    let mut region = source_region(alloc, tables.plan.as_slice(), source)?;
    let mut steps = 0;
    let phases = program.phases.as_slice();
    run_phases(phases, source, alloc, &mut tables, &mut region, &mut steps)?;
    if tables.budget.is_over(steps) {
        return Err(RunStop::OutOfSteps);
    }
    let buffers = given(alloc, program.give.as_slice(), source, &tables, &region)?;
    Ok(Ran { buffers, steps })
}

//! The check of a program.

ghost use Rattle.std.specs.Prelude.{◌≡◌, ◌≤◌, map};
ghost use Rattle.us_code.specs.Plain.{phase_tree, program_tree};
ghost use Rattle.us_code.specs.Limits.{KeepsLimits, items};
ghost use Rattle.us_code.specs.Unbound.{unbound_from, first_unbound};
ghost use Rattle.us_bounds.specs.Seen.{context_of};
ghost use Rattle.us_bounds.specs.Verdict.{IsVerdict, IsVerified};

use crate::fault::VerifyFault;
use crate::giving::{at_phase, check_give};
use crate::phases::check_phase;
use crate::table::Table;
use crate::verified::Verified;
use std::alloc::Global;
use us_code::{Phase, Program};

/// Checks the phases, and behind them the `give` line.
fn check_phases(
    alloc: Global,
    table: &mut Table,
    phases: &[Phase],
    give: &[u32],
) -> Result<(), VerifyFault>
    requires { items (map phase_tree phases.now) ≤ 65536 }
    ensures { IsVerdict result (unbound_from (context_of table.old) 0 (map phase_tree phases.now) give.now) }
{
    for (number, phase) in phases.iter().enumerate() {
        let step = check_phase(table, phase);
        at_phase(number as u64, step)?;
    }
    check_give(alloc, table, phases.len() as u64, give)
}

/// Checks a program.
fn check_program(alloc: Global, program: &Program) -> Result<(), VerifyFault>
    requires { KeepsLimits (program_tree program.now) }
    ensures { IsVerdict result (first_unbound (program_tree program.now)) }
{
    let mut table = Table::new(alloc, program.sources);
    check_phases(
        alloc,
        &mut table,
        program.phases.as_slice(),
        program.give.as_slice(),
    )
}

/// Takes a program that keeps the rules of loop code, so that it stays in its buffers whatever its sources.
///
/// Else it says which item is the first that breaks a rule, and its lowest rule:
/// 1 names, 2 the place of a load or a store, 3 what is stored, 4 the ends of a span, 5 `flat`, 6 `next` and `up`,
/// 7 the keys of an `order`, 8 room for 0 in the cells of a `new`, 9 stores to new buffers alone, 10 no buffer given twice.
pub fn verify(alloc: Global, program: Program) -> Result<Verified, VerifyFault>
    requires { KeepsLimits (program_tree program) }
    ensures { IsVerified program result }
{
    match check_program(alloc, &program) {
        Ok(()) => Ok(Verified::new(program)),
        Err(fault) => Err(fault),
    }
}

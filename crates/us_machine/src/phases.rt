//! Phases.
ghost use Rattle.std.specs.Prelude.{◌≡◌, ◌+◌, ◌∷◌, [], OnOk, length, map};
ghost use Rattle.us_code.specs.Plain.{phase_tree};
ghost use Rattle.us_machine.specs.Phases.{CanBegin, CanRun, Makes, Runs, grown_in, count_makes};

use crate::growing::grow;
use crate::lines::run_lines;
use crate::makes::run_makes;
use crate::names::Registers;
use crate::rooms::room;
use crate::stop::RunStop;
use crate::tables::Tables;
use crate::walk::run_block;
use std::alloc::Global;
use us_code::{Make, Phase};
use us_matrix::Buffers;
use us_raw::Region;

/// Makes the lists of `new` lines. Where there are none, the region stays.
fn make_lists(
    makes: &[Make],
    source: &Buffers,
    alloc: Global,
    tables: &mut Tables,
    region: &mut Region,
    steps: &mut u64,
) -> Result<(), RunStop>
    requires { CanBegin tables.old source.now region.old steps.old makes.now }
    ensures makes { Makes tables.old tables.new source.now result steps.old steps.new makes.now }
    ensures budget { tables.new.budget ≡ tables.old.budget }
    ensures plan { OnOk result (length tables.new.plan.items ≡ length tables.old.plan.items + length makes.now) }
    ensures region { OnOk result (region.new ≡ grown_in tables.new region.old) }
{
    if makes.is_empty() {
        return Ok(());
    }
    let count = tables.plan.len();
    run_makes(makes, source, tables, steps)?;
    *region = grow(alloc, tables.plan.as_slice(), count, region)?;
    Ok(())
}

/// Runs a phase: its `new` lines, its block, its dim lines.
fn run_phase(
    phase: &Phase,
    source: &Buffers,
    alloc: Global,
    tables: &mut Tables,
    region: &mut Region,
    steps: &mut u64,
) -> Result<(), RunStop>
    requires { CanRun tables.old source.now region.old steps.old (phase_tree phase.now ∷ []) }
    ensures runs { Runs tables.old tables.new source.now region.old region.new result steps.old steps.new (phase_tree phase.now ∷ []) }
    ensures budget { tables.new.budget ≡ tables.old.budget }
    ensures plan { OnOk result (length tables.new.plan.items ≡ length tables.old.plan.items + count_makes (phase_tree phase.now ∷ [])) }
{
    make_lists(phase.makes.as_slice(), source, alloc, tables, region, steps)?;
    let mut regs = Registers::new(alloc, room(&phase.body))?;
    run_block(&phase.body, tables, source, alloc, &mut regs, region, steps)?;
    run_lines(phase.dims.as_slice(), source, &regs, tables, steps)?;
    Ok(())
}

/// Runs phases.
pub fn run_phases(
    phases: &[Phase],
    source: &Buffers,
    alloc: Global,
    tables: &mut Tables,
    region: &mut Region,
    steps: &mut u64,
) -> Result<(), RunStop>
    requires { CanRun tables.old source.now region.old steps.old (map phase_tree phases.now) }
    ensures runs { Runs tables.old tables.new source.now region.old region.new result steps.old steps.new (map phase_tree phases.now) }
    ensures budget { tables.new.budget ≡ tables.old.budget }
{
    for phase in phases {
        run_phase(phase, source, alloc, tables, region, steps)?;
    }
    Ok(())
}

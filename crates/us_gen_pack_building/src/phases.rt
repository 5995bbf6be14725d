//! The phases that build all buffers of a part with packs.

ghost use Rattle.std.specs.Prelude.{◌≡◌, ◌+◌, ◌*◌, ◌<◌, ◌≤◌, ◌^◌, length, map, IfOk, MatchOption};
ghost use Rattle.us_code.specs.Plain.{line_tree, phase_tree};
ghost use Rattle.us_gen_build.specs.Levels.{level_trees, HaveNames};
ghost use Rattle.us_gen_packs.specs.Packs.{pack_trees, HavePlaces};
ghost use Rattle.us_gen_pack_building.specs.Levels.{FitRuns};
ghost use Rattle.us_gen_pack_building.specs.Phases as phases;

use crate::levels::{bottom, pack_buffers, pack_lines, packed_levels, writers};
use crate::part::PackedLoops;
use sqlite_items::Items;
use std::alloc::{AllocError, Global};
use us_code::{Dim, DimLines, Numbers, Phase, Phases};
use us_gen_build::{BuildLevel, new_buffers};
use us_gen_building::{
    Descent, all_columns, buffers_of, counting_phase, first_column, order_of, top_of,
};
use us_gen_packs::{PackWriter, new_packs, packed_block};

/// Above the first level of the loop that builds.
fn packing_top(packed: &PackedLoops, first: u32) -> Descent
    requires room { first + phases.room packed.now < 2 ^ 32 }
    ensures top { result ≡ phases.packing_top packed.now first }
    ensures dims { result.dims + 2 * length packed.now.part.levels.items + 2 < 2 ^ 32 }
    ensures first { result.first + 4 * length packed.now.part.levels.items + 4 < 2 ^ 32 }
    ensures register { result.register + length packed.now.part.levels.items + 1 < 2 ^ 32 }
{
    let number = packed.part.levels.len() as u32;
    let order = order_of(packed.part.keys, first);
    let turn = first + 7 * number + 4;
    top_of(
        first + 5 * number + 4,
        first + 8 * number + 8,
        first_column(order, turn),
    )
}

/// The levels of the loop.
fn all_levels(
    alloc: Global,
    packed: &PackedLoops,
    first: u32,
) -> Result<Vec<BuildLevel>, AllocError>
    requires room { first + phases.room packed.now < 2 ^ 32 }
    ensures trees { IfOk result (λ v. level_trees v.items ≡ phases.all_levels packed.now first) }
    ensures names { IfOk result (λ v. HaveNames v.items) }
    ensures number { IfOk result (λ v. length v.items ≤ length packed.now.part.levels.items + 1) }
{
    let top = packing_top(packed, first);
    let levels = packed.part.levels.as_slice();
    packed_levels(
        alloc,
        packed.part.count,
        packed.packs.as_slice(),
        0,
        levels,
        top,
    )
}

/// The packs of the loop.
fn all_packs(alloc: Global, packed: &PackedLoops, first: u32) -> Result<Vec<PackWriter>, AllocError>
    requires runs { FitRuns (length packed.now.part.levels.items + 1) packed.now.packs.items }
    requires room { first + phases.room packed.now < 2 ^ 32 }
    ensures trees { IfOk result (λ v. pack_trees v.items ≡ phases.all_packs packed.now first) }
    ensures places { IfOk result (λ v. HavePlaces v.items) }
{
    let number = packed.part.levels.len() as u32;
    let top = packing_top(packed, first);
    let below = bottom(packed.part.count, packed.part.levels.as_slice(), top);
    let name = first + 12 * number + 12;
    writers(
        alloc,
        packed.packs.as_slice(),
        name,
        top.register,
        number + 1,
        below,
    )
}

/// A phase with more dims behind its own.
fn with_lines(mut phase: Phase, more: DimLines) -> Result<Phase, AllocError>
    ensures { IfOk result (λ p. phase_tree p ≡ phases.with_lines (phase_tree phase) (map line_tree more)) }
{
    phase.dims.append(more)?;
    Ok(phase)
}

/// The phase that orders the entries, counts nodes, and gives all numbers of positions and of the packs' cells.
fn cell_counting_phase(alloc: Global, packed: &PackedLoops, first: u32) -> Result<Phase, AllocError>
    requires keys { MatchOption packed.now.part.keys (Unit {0}) (λ k. k ≤ length packed.now.part.levels.items) }
    requires runs { FitRuns (length packed.now.part.levels.items + 1) packed.now.packs.items }
    requires room { first + phases.room packed.now < 2 ^ 32 }
    ensures { IfOk result (λ p. phase_tree p ≡ phases.cell_counting_phase packed.now first) }
{
    let packs = all_packs(alloc, packed, first)?;
    let lines = pack_lines(alloc, packs.as_slice())?;
    let phase = counting_phase(alloc, &packed.part, first)?;
    with_lines(phase, lines)
}

/// The phase that makes the buffers and fills them.
fn packing_phase(alloc: Global, packed: &PackedLoops, first: u32) -> Result<Phase, AllocError>
    requires runs { FitRuns (length packed.now.part.levels.items + 1) packed.now.packs.items }
    requires room { first + phases.room packed.now < 2 ^ 32 }
    ensures { IfOk result (λ p. phase_tree p ≡ phases.packing_phase packed.now first) }
{
    let number = packed.part.levels.len() as u32;
    let order = order_of(packed.part.keys, first);
    let columns = all_columns(alloc, &packed.part)?;
    let levels = all_levels(alloc, packed, first)?;
    let packs = all_packs(alloc, packed, first)?;
    let turn = first + 7 * number + 4;
    let end = first + 12 * number + 12 + packed.packs.len() as u32;
    let entries = Dim::Name(packed.part.count);
    let body = packed_block(
        alloc,
        entries,
        order,
        columns.as_slice(),
        levels.as_slice(),
        packs.as_slice(),
        turn,
        end,
    )?;
    let mut makes = new_buffers(alloc, levels.as_slice())?;
    makes.append(new_packs(alloc, packs.as_slice())?)?;
    Ok(Phase {
        makes,
        body,
        dims: Items::new(alloc),
    })
}

/// The phases that build all buffers of a part from columns of its entries. They take numbers from `first` on: 15 for each
/// level, one for each pack, and 20. It fails only for want of memory.
pub fn pack_phases(alloc: Global, packed: &PackedLoops, first: u32) -> Result<Phases, AllocError>
    requires keys { MatchOption packed.now.part.keys (Unit {0}) (λ k. k ≤ length packed.now.part.levels.items) }
    requires runs { FitRuns (length packed.now.part.levels.items + 1) packed.now.packs.items }
    requires room { first + phases.room packed.now < 2 ^ 32 }
    ensures { IfOk result (λ ps. map phase_tree ps ≡ phases.packing_phases packed.now first) }
{
    let mut made = Items::new(alloc);
    made.push(cell_counting_phase(alloc, packed, first)?)?;
    made.push(packing_phase(alloc, packed, first)?)?;
    Ok(made)
}

/// The buffers that the phases fill: those that the levels and the values keep of their own, in order, and the packs. It
/// fails only for want of memory.
pub fn packed_buffers(
    alloc: Global,
    packed: &PackedLoops,
    first: u32,
) -> Result<Numbers, AllocError>
    requires runs { FitRuns (length packed.now.part.levels.items + 1) packed.now.packs.items }
    requires room { first + phases.room packed.now < 2 ^ 32 }
    ensures { IfOk result (λ bs. bs ≡ phases.packed_buffers packed.now first) }
{
    let levels = all_levels(alloc, packed, first)?;
    let packs = all_packs(alloc, packed, first)?;
    let mut buffers = buffers_of(alloc, levels.as_slice())?;
    buffers.append(pack_buffers(alloc, packs.as_slice())?)?;
    Ok(buffers)
}

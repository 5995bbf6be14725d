//! What a run begins with, and what it gives.
ghost use Rattle.std.specs.Prelude.{◌≡◌, ◌+◌, ◌<◌, ◌≤◌, ℕ, ℤ, pos, [], ◌∷◌, List, length, map, get_or, IfOk};
ghost use Rattle.us_raw.specs.Plan.{widths_of};
ghost use Rattle.us_machine.specs.Starting.{IsSourcePlan, AreSources};
ghost use Rattle.us_machine.specs.Steps.{budget_of};
ghost use Rattle.us_machine.specs.Tables.{held};
ghost use Rattle.us_machine.specs.Walks.{bufs_of, Stands};

use crate::budget::Budget;
use crate::growing::write_list;
use crate::names::Names;
use crate::tables::Tables;
use std::alloc::{AllocError, Global};
use us_matrix::Buffers;
use us_raw::{Region, Segment, Width};

/// How many names have places, whatever their numbers.
const PLACES: usize = 65536;

/// The plan of a region that has the sources alone, behind one list without cells.
fn source_plan(alloc: Global, source: &Buffers) -> Result<Vec<Segment>, AllocError>
    requires { AreSources source.now }
    ensures { IfOk result (λ plan. IsSourcePlan source.now (length source.now) plan.items) }
{
    let mut plan = Vec::new(alloc);
    plan.push(Segment {
        len: 0,
        width: Width::W1,
    })?;
    for k in 0..source.count() {
        let cells = source.list(k);
        plan.push(Segment {
            len: cells.len() as u64,
            width: Width::least(cells),
        })?;
    }
    Ok(plan)
}

impl Tables {
    /// No dim has a value, and no new buffer is made.
    pub fn new(alloc: Global, source: &Buffers, budget: Option<u64>) -> Result<Tables, AllocError>
        requires { AreSources source.now }
        ensures names { IfOk result (λ t. (held t.dims ≡ (λ _. 0)) × (held t.factors ≡ (λ _. 0)) × (held t.segs ≡ (λ _. 0))) }
        ensures plan { IfOk result (λ t. IsSourcePlan source.now (length source.now) t.plan.items) }
        ensures budget { IfOk result (λ t. t.budget ≡ budget_of budget) }
    {
        Ok(Tables {
            dims: Names::new(alloc, PLACES)?,
            factors: Names::new(alloc, PLACES)?,
            segs: Names::new(alloc, PLACES)?,
            plan: source_plan(alloc, source)?,
            budget: Budget::new(budget),
        })
    }
}

/// The region of the sources.
pub fn source_region(
    alloc: Global,
    plan: &[Segment],
    source: &Buffers,
) -> Result<Region, AllocError>
    requires sources { AreSources source.now }
    requires plan { IsSourcePlan source.now (length source.now) plan.now }
    ensures { IfOk result (λ r. (r.lists ≡ [] ∷ source.now) × (r.widths ≡ widths_of plan.now)) }
{
    let mut region = Region::new(alloc, plan)?;
    for k in 0..source.count() {
        write_list(&mut region, k + 1, source.list(k));
    }
    Ok(region)
}

/// The cells of a list of the region.
fn cells_of(alloc: Global, region: &Region, seg: usize, len: u64) -> Result<Vec<i64>, AllocError>
    requires { (seg < length region.now.lists) × (length (get_or region.now.lists seg []) ≡ len) }
    ensures { IfOk result (λ v. v.items ≡ get_or region.now.lists seg []) }
{
    let mut cells = Vec::new(alloc);
    for x in 0..len {
        cells.push(region.get(seg, x))?;
    }
    Ok(cells)
}

/// The lists of new buffers.
pub fn given(
    alloc: Global,
    give: &[u32],
    source: &Buffers,
    tables: &Tables,
    region: &Region,
) -> Result<Buffers, AllocError>
    requires { Stands tables.now source.now region.now }
    ensures { IfOk result (λ b. b ≡ map (bufs_of tables.now region.now) give.now) }
{
    let mut buffers = Buffers::new(alloc);
    for name in give {
        let seg = tables.segs.get(*name) as usize;
        buffers.push(cells_of(alloc, region, seg, tables.plan[seg].len)?)?;
    }
    Ok(buffers)
}

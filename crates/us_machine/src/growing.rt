//! Regions that are made anew with more lists.
ghost use Rattle.std.specs.Prelude.{◌≡◌, ◌+◌, ◌<◌, ◌≤◌, ℕ, ℤ, pos, [], List, ◌++◌, drop, length, get_or, slice_set, IfOk};
ghost use Rattle.us_raw.specs.declared.width.Width.TheVariants.{W8};
ghost use Rattle.us_raw.specs.Plan.{IsPlan, widths_of, zero_lists};
ghost use Rattle.us_raw.specs.Widths.{Holds, HoldsAll};
ghost use Rattle.us_machine.specs.Growing.{IsGrown, grown};

use std::alloc::{AllocError, Global};
use us_raw::{Region, Segment};

/// A list of the region gets the cells.
pub fn write_list(region: &mut Region, seg: usize, cells: &[i64])
    requires there { seg < length region.old.lists }
    requires long { length (get_or region.old.lists seg []) ≡ length cells.now }
    requires fit { HoldsAll (get_or region.old.widths seg W8) cells.now }
    ensures lists { region.new.lists ≡ slice_set region.old.lists seg cells.now }
    ensures widths { region.new.widths ≡ region.old.widths }
{
    for x in 0..cells.len() {
        region.set(seg, x as u64, cells[x]);
    }
}

/// A list of the region gets the cells of the list of another region under the same number.
fn copy_list(region: &mut Region, seg: usize, len: u64, old: &Region)
    requires there { (seg < length region.old.lists) × (seg < length old.now.lists) }
    requires long { (length (get_or region.old.lists seg []) ≡ len) × (length (get_or old.now.lists seg []) ≡ len) }
    requires fit { HoldsAll (get_or region.old.widths seg W8) (get_or old.now.lists seg []) }
    ensures lists { region.new.lists ≡ slice_set region.old.lists seg (get_or old.now.lists seg []) }
    ensures widths { region.new.widths ≡ region.old.widths }
{
    for x in 0..len {
        let cell = old.get(seg, x);
        region.set(seg, x, cell);
    }
}

/// The region of a plan that goes on from the plan of another region, whose lists stay. `count` is their number.
pub fn grow(
    alloc: Global,
    plan: &[Segment],
    count: usize,
    old: &Region,
) -> Result<Region, AllocError>
    requires plan { IsPlan plan.now }
    requires grown { IsGrown plan.now old.now }
    requires count { count ≡ length old.now.lists }
    ensures { IfOk result (λ r. (r.lists ≡ grown plan.now old.now.lists) × (r.widths ≡ widths_of plan.now)) }
{
    let mut region = Region::new(alloc, plan)?;
    for seg in 0..count {
        copy_list(&mut region, seg, plan[seg].len, old);
    }
    Ok(region)
}

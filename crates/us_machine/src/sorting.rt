//! The statement that orders.
ghost use Rattle.std.specs.Prelude.{◌≡◌, ◌+◌, List, ◌<◌, ◌≤◌, ℕ, ℤ, pos, [], map, length, get_or, slice_set, false, IsTrue, IfOk};
ghost use Rattle.std.specs.List.{range_with_len};
ghost use Rattle.std.specs.Ordering.{is_lt};
ghost use Rattle.us_code.specs.Plain as plain;
ghost use Rattle.us_code.specs.Run.{exec};
ghost use Rattle.us_code.specs.Sort as sort;
ghost use Rattle.us_code.specs.Typing.{Context};
ghost use Rattle.us_raw.specs.declared.width.Width.TheVariants.{W8};
ghost use Rattle.us_raw.specs.Widths.{HoldsAll};
ghost use Rattle.us_machine.specs.Sorting.{lists_at, lists_of, AreLists, AreLong, CanOrder};
ghost use Rattle.us_machine.specs.Steps.{Shows};
ghost use Rattle.us_machine.specs.Tables.{env_of, seg_of};
ghost use Rattle.us_machine.specs.Walks.{Ready, Leads, state_of};

use crate::packing::{PLACES, WORD, digits_of, is_narrow, sorted_by_number, sorted_by_word};
use crate::stop::RunStop;
use crate::tables::Tables;
use std::alloc::{AllocError, Global};
use std::cmp::Ordering;
use us_code::Buf;
use us_raw::Region;

/// The cell of a list at a place, or 0 behind its end.
#[inline(always)]
fn cell(region: &Region, seg: usize, place: u32, len: u64) -> i64
    requires { length (get_or region.now.lists seg []) ≡ len }
    ensures { result ≡ get_or (get_or region.now.lists seg []) place (pos 0) }
{
    let place = u64::from(place);
    if place < len {
        region.get(seg, place)
    } else {
        0
    }
}

/// Which of two places comes first: by the first key that tells them apart, else by number.
#[inline(always)]
fn compare(segs: &[usize], x: u32, y: u32, len: u64, region: &Region) -> Ordering
    requires { AreLists region.now.lists len segs.now }
    ensures { is_lt result ≡ sort.before (lists_at region.now.lists segs.now) x y }
{
    for seg in segs {
        let left = cell(region, *seg, x, len);
        let right = cell(region, *seg, y, len);
        if left < right {
            return Ordering::Less;
        }
        if right < left {
            return Ordering::Greater;
        }
    }
    x.cmp(&y)
}

/// Whether no place comes before the one in front of it.
fn is_in_order(segs: &[usize], len: u64, region: &Region) -> bool
    requires lists { AreLists region.now.lists len segs.now }
    requires small { len ≤ 67108865 }
    ensures ascends { IsTrue result → (x : ℕ) → x + 1 < len → sort.before (lists_at region.now.lists segs.now) (x + 1) x ≡ false }
    ensures long { result ≡ false → 1 < len }
{
    for x in 1..len as u32 {
        if compare(segs, x, x - 1, len, region).is_lt() {
            return false;
        }
    }
    true
}

/// The places below `len`.
fn places_below(alloc: Global, len: u64) -> Result<Vec<u32>, AllocError>
    requires { len ≤ 67108865 }
    ensures { IfOk result (λ v. v.items ≡ range_with_len 0 len) }
{
    let mut places = Vec::with_capacity(alloc, len as usize)?;
    for x in 0..len {
        places.push(x as u32)?;
    }
    Ok(places)
}

/// The places below `len` in the order of the lists, sorted by comparing places.
fn sorted_by_comparing(
    alloc: Global,
    segs: &[usize],
    len: u64,
    region: &Region,
) -> Result<Vec<u32>, AllocError>
    requires lists { AreLists region.now.lists len segs.now }
    requires small { len ≤ 67108865 }
    ensures { IfOk result (λ v. v.items ≡ sort.ordered (lists_at region.now.lists segs.now) len) }
{
    let mut places = places_below(alloc, len)?;
    places.sort_unstable_by(|x, y| compare(segs, *x, *y, len, region));
    Ok(places)
}

/// The places below `len` in the order of the lists.
fn sorted(alloc: Global, segs: &[usize], len: u64, region: &Region) -> Result<Vec<u32>, AllocError>
    requires lists { AreLists region.now.lists len segs.now }
    requires small { len ≤ 67108865 }
    ensures { IfOk result (λ v. v.items ≡ sort.ordered (lists_at region.now.lists segs.now) len) }
{
    if is_in_order(segs, len, region) {
        return places_below(alloc, len);
    }
    let digits = digits_of(alloc, segs, len, region)?;
    if is_narrow(digits.as_slice(), u128::from(len), WORD) {
        sorted_by_word(alloc, digits.as_slice(), len, region)
    } else if is_narrow(digits.as_slice(), PLACES, u128::MAX) {
        sorted_by_number(alloc, digits.as_slice(), len, region)
    } else {
        sorted_by_comparing(alloc, segs, len, region)
    }
}

/// The lists that the buffers are.
fn segments(alloc: Global, keys: &[Buf], tables: &Tables) -> Result<Vec<usize>, AllocError>
    ensures { IfOk result (λ v. v.items ≡ map (seg_of tables.now) keys.now) }
{
    keys.iter().map(|key| tables.segment(*key)).collect(alloc)
}

/// The places below `len` in the order of the keys.
fn ordered(
    alloc: Global,
    keys: &[Buf],
    len: u64,
    tables: &Tables,
    region: &Region,
) -> Result<Vec<u32>, AllocError>
    requires long { AreLong tables.now region.now.lists len keys.now }
    requires small { len ≤ 67108865 }
    ensures { IfOk result (λ v. v.items ≡ sort.ordered (lists_of tables.now region.now.lists keys.now) len) }
{
    let segs = segments(alloc, keys, tables)?;
    sorted(alloc, segs.as_slice(), len, region)
}

/// A list of the region gets the numbers.
fn write_places(region: &mut Region, seg: usize, places: &[u32])
    requires there { seg < length region.old.lists }
    requires long { length (get_or region.old.lists seg []) ≡ length places.now }
    requires fit { HoldsAll (get_or region.old.widths seg W8) (map pos places.now) }
    ensures lists { region.new.lists ≡ slice_set region.old.lists seg (map pos places.now) }
    ensures widths { region.new.widths ≡ region.old.widths }
{
    for x in 0..places.len() {
        region.set(seg, x as u64, i64::from(places[x]));
    }
}

/// A buffer becomes the list of its places in ascending order of the keys there, then of the place. The statement's own
/// step is counted already.
pub fn order(
    buf: Buf,
    keys: &[Buf],
    tables: &Tables,
    alloc: Global,
    region: &mut Region,
    steps: &mut u64,
) -> Result<(), RunStop>
    requires { CanOrder tables.now region.old buf keys.now }
    ensures { (sources : List (List ℤ)) (regs : ℕ → ℤ) (g : Context) (n : ℕ)
        → Ready tables.now sources region.old regs g (plain.Order buf keys.now plain.End) → Shows tables.now.budget steps.old (n + 1)
        → Leads tables.now sources result
        (exec (env_of tables.now sources) (plain.Order buf keys.now plain.End) (state_of tables.now region.old regs n))
        region.new regs steps.new }
{
    let seg = tables.segment(buf);
    let len = tables.plan[seg].len;
    tables.budget.charge(steps, len * keys.len() as u64)?;
    let places = ordered(alloc, keys, len, tables, region)?;
    write_places(region, seg, places.as_slice());
    Ok(())
}

// Sets merged with entries.
ghost use Rattle.std.specs.Prelude.{◌≡◌, ◌≢◌, ◌<◌, ◌≤◌, ◌+◌, ◌++◌, ◌∷◌, [], ◌&&◌, ◌==◌, ℕ, nat_lt, pos, IfOk, OnOk, length, slice_index_or, if◌then◌else◌};
ghost use Rattle.std.specs.Bool.{OnTrue};
ghost use Rattle.std.specs.Ordering.{int_eq};
ghost use Rattle.std.specs.List.Sorted.{IsNonDecreasingBy};
ghost use Rattle.us_matrix.specs.declared.matrix.Triple.{Triple};
ghost use Rattle.us_matrix.specs.Map.{IsRisingFrom, AreEntries, place};
ghost use Rattle.us_changes.specs.Edits.{in_front, none_at, old_values};
ghost use Rattle.us_changes.specs.Keeping.{put_all};
ghost use Rattle.us_changes.specs.Merging.{IsMerged};

use crate::sorting::place_of;
use std::alloc::{AllocError, Global};
use us_matrix::{Shape, Triple};

/// The entries behind some sets, and the old value, or 0, at each coordinate where they differ from those before.
#[derive(Drop)]
pub struct Merged {
    pub entries: Vec<Triple>,
    pub back: Vec<Triple>,
}

/// Merges sets in row-major order, of which the last at each coordinate counts, with the entries of a matrix of this shape.
pub fn merge(
    alloc: Global,
    shape: Shape,
    entries: &[Triple],
    sets: &[Triple],
) -> Result<Merged, AllocError>
    requires rising { IsRisingFrom 0 entries.now }
    requires entries { AreEntries shape.rows shape.cols entries.now }
    requires order { IsNonDecreasingBy place sets.now }
    ensures entries { IfOk result (λ m. m.entries.items ≡ put_all sets.now entries.now) }
    ensures back { IfOk result (λ m. m.back.items ≡ old_values entries.now (put_all sets.now entries.now)) }
    ensures few { IfOk result (λ m. length m.back.items ≤ length sets.now) }
{
    let mut merged = Merged {
        entries: Vec::new(alloc),
        back: Vec::new(alloc),
    };
    let mut rest = entries;
    for k in 0..sets.len() {
        if !is_overwritten(sets, k) {
            let count = take_set(&mut merged, shape, rest, sets[k])?;
            rest = &rest[count..];
        }
    }
    merged.entries.extend_from_slice(rest)?;
    Ok(merged)
}

// Whether the next set is at the same coordinate.
fn is_overwritten(sets: &[Triple], k: usize) -> bool
    requires { k < length sets.now }
    ensures { (d : Triple) → result ≡ (nat_lt (k + 1) (length sets.now) && (place (slice_index_or sets.now (k + 1) d) == place (slice_index_or sets.now k d))) }
{
    k + 1 < sets.len() && place_of(&sets[k + 1]) == place_of(&sets[k])
}

// Writes the entries that stand before a set, and what the set leaves. Answers how many entries these are, with the one at the
// set's coordinate.
fn take_set(
    merged: &mut Merged,
    shape: Shape,
    rest: &[Triple],
    set: Triple,
) -> Result<usize, AllocError>
    requires rising { IsRisingFrom 0 rest.now }
    requires entries { AreEntries shape.rows shape.cols rest.now }
    ensures { IfOk result (λ n. IsMerged rest.now set merged.old.entries.items merged.new.entries.items merged.old.back.items merged.new.back.items n) }
{
    let count = count_below(rest, place_of(&set));
    merged.entries.extend_from_slice(&rest[..count])?;
    let here = put_set(merged, shape, &rest[count..], set)?;
    Ok(count + here)
}

// How many entries in front stand before a place.
fn count_below(rest: &[Triple], wanted: u64) -> usize
    ensures within { result ≤ length rest.now }
    ensures before { (k : ℕ) (d : Triple) → k < result → place (slice_index_or rest.now k d) < wanted }
    ensures behind { (d : Triple) → result < length rest.now → wanted ≤ place (slice_index_or rest.now result d) }
{
    for (k, t) in rest.iter().enumerate() {
        if place_of(t) >= wanted {
            return k;
        }
    }
    rest.len()
}

// What a set leaves, where no entry stands before it. Answers how many entries stand at its coordinate.
fn put_set(
    merged: &mut Merged,
    shape: Shape,
    rest: &[Triple],
    set: Triple,
) -> Result<usize, AllocError>
    requires rising { IsRisingFrom (place set) rest.now }
    requires entries { AreEntries shape.rows shape.cols rest.now }
    ensures { IfOk result (λ n. IsMerged rest.now set merged.old.entries.items merged.new.entries.items merged.old.back.items merged.new.back.items n) }
{
    push_value(&mut merged.entries, set)?;
    if is_at_front(rest, set) {
        push_changed(&mut merged.back, rest[0], set)?;
        return Ok(1);
    }
    push_new(&mut merged.back, set)?;
    Ok(0)
}

// Whether the first entry stands at the set's coordinate.
fn is_at_front(rest: &[Triple], set: Triple) -> bool
    ensures at { (d : Triple) → result ≡ (nat_lt 0 (length rest.now) && (place (slice_index_or rest.now 0 d) == place set)) }
    ensures some { OnTrue result (0 < length rest.now) }
{
    !rest.is_empty() && place_of(&rest[0]) == place_of(&set)
}

// A set that isn't 0 is an entry.
fn push_value(entries: &mut Vec<Triple>, set: Triple) -> Result<(), AllocError>
    ensures { OnOk result (entries.new.items ≡ entries.old.items ++ in_front set []) }
{
    if set.v != 0 {
        entries.push(set)?;
    }
    Ok(())
}

// An entry whose value becomes another one is given back.
fn push_changed(back: &mut Vec<Triple>, old: Triple, set: Triple) -> Result<(), AllocError>
    ensures { OnOk result (back.new.items ≡ back.old.items ++ (if int_eq old.v set.v then [] else old ∷ [])) }
{
    if old.v != set.v {
        back.push(old)?;
    }
    Ok(())
}

// A set that makes an entry where there is none is taken away.
fn push_new(back: &mut Vec<Triple>, set: Triple) -> Result<(), AllocError>
    ensures { OnOk result (back.new.items ≡ back.old.items ++ (if int_eq set.v (pos 0) then [] else none_at set ∷ [])) }
{
    if set.v == 0 {
        return Ok(());
    }
    back.push(Triple { v: 0, ..set })?;
    Ok(())
}

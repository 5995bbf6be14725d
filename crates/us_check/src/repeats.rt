//! The first coordinate that comes twice.
ghost use Rattle.std.specs.Prelude.{◌≡◌, ◌<◌, ◌^◌, All, IfOk, length};
ghost use Rattle.us_format.specs.Program.{plain_entry};
ghost use Rattle.us_check.specs.Repeats.{IsFirstRepeat, IsLeastIndex, found_entries, looked_at, lowest, places_from, walked};

use std::alloc::{AllocError, Global};
use us_climb::Found;
use us_matrix::Triple;

/// Where a coordinate stands in a row-major walk, and the index of its entry.
#[derive(Clone, Copy)]
struct Place {
    at: u64,
    index: usize,
}

// The place of a coordinate.
fn walked(triple: &Triple) -> u64
    ensures { result ≡ walked (plain_entry triple.now) }
{
    2147483648 * u64::from(triple.i) + u64::from(triple.j)
}

// The place of each entry.
fn places_of(alloc: Global, found: &[Found]) -> Result<Vec<Place>, AllocError>
    ensures { IfOk result (λ places. places.items ≡ places_from 0 (found_entries found.now)) }
{
    let mut places = Vec::new(alloc);
    for (index, f) in found.iter().enumerate() {
        places.push(Place {
            at: walked(&f.triple),
            index,
        })?;
    }
    Ok(places)
}

// The lower of two indices, where there are two.
fn lower(least: Option<usize>, index: usize) -> usize
    ensures { result ≡ lowest least index }
{
    match least {
        Some(x) if x < index => x,
        _ => index,
    }
}

// The least index, after a place was looked at behind the one before it.
fn looked_at(least: Option<usize>, before: Place, place: Place) -> Option<usize>
    ensures { result ≡ looked_at least before place }
{
    if before.at == place.at {
        return Some(lower(least, place.index));
    }
    least
}

// Of places that equal the one before them the least index.
fn least_index(places: &[Place]) -> Option<usize>
    ensures { IsLeastIndex places.now (length places.now) result }
{
    let mut least = None;
    for k in 1..places.len() {
        least = looked_at(least, places[k - 1], places[k]);
    }
    least
}

/// The least index of an entry whose coordinate stands at an earlier index, if there is one.
pub fn first_repeated(alloc: Global, found: &[Found]) -> Result<Option<usize>, AllocError>
    requires { All (λ f. f.triple.j < 2 ^ 31) found.now }
    ensures { IfOk result (IsFirstRepeat (found_entries found.now)) }
{
    let mut places = places_of(alloc, found)?;
    places.sort_unstable_by_key(|p| (p.at, p.index));
    Ok(least_index(&places))
}

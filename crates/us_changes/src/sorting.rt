// Sets in row-major order.
ghost use Rattle.std.specs.Prelude.{◌≡◌, OnOk};
ghost use Rattle.us_matrix.specs.Map.{place};
ghost use Rattle.us_changes.specs.Keeping.{IsInOrder};

use std::alloc::AllocError;
use us_matrix::Triple;

/// The place of a coordinate in a row-major walk through rows of 2^31 columns each.
pub fn place_of(t: &Triple) -> u64
    ensures { result ≡ place t.now }
{
    2147483648 * u64::from(t.i) + u64::from(t.j)
}

/// Sorts sets by their coordinates. Those at one coordinate keep their order.
pub fn sort_sets(sets: &mut Vec<Triple>) -> Result<(), AllocError>
    ensures { OnOk result (IsInOrder sets.old.items sets.new.items) }
{
    sets.sort_by_key(|t| place_of(t))?;
    Ok(())
}

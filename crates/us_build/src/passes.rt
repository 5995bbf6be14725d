//! The two passes over the levels: the first adds up the size and stops above the limit, the second writes the lists.
ghost use Rattle.std.specs.Prelude.{◌≡◌, ◌<◌, ◌≤◌, ◌+◌, ◌-◌, ◌*◌, ◌^◌, ◌++◌, min, map, length, true, false, All, OnOk};
ghost use Rattle.us_format.specs.declared.Kind.TheVariants.{Full};
ghost use Rattle.us_format.specs.Buffers.{level_buffers};
ghost use Rattle.us_format.specs.Packs.{written};
ghost use Rattle.us_format.specs.Reading.{limit};
ghost use Rattle.us_build.specs.Items.{rows_at, rows_first};
ghost use Rattle.us_build.specs.Ready.{AreReady, size_from};
ghost use Rattle.us_build.specs.Sizes.{plain_levels, level_size};

use crate::cells::{push_level, values};
use crate::items::{Item, PLACES};
use crate::levels::Level;
use crate::steps::go_down;
use std::alloc::{AllocError, Global};
use us_format::Kind;
use us_matrix::Buffers;

/// The largest size of buffers that are built.
pub const LIMIT: u64 = 67108864;

/// The lengths of the lists of a level, and how many positions there are behind it, added up.
fn level_size(kind: Kind, above: u64, positions: u64) -> u64
    requires above { above ≤ limit }
    requires positions { positions ≤ limit }
    ensures { result ≡ level_size kind above positions }
{
    match kind {
        Kind::Full => positions,
        Kind::Compressed => above + 1 + 2 * positions,
        Kind::Listed => above + 1 + 2 * positions,
        Kind::Slot => above + positions,
    }
}

/// Whether a level is full and has more positions than the limit.
pub(crate) fn is_too_long(level: &Level, above: u64) -> bool
    requires above { above ≤ limit }
    requires size { level.now.size < 2 ^ 38 }
    ensures long { result ≡ true → (level.now.kind ≡ Full) × (limit < above * level.now.size) }
    ensures short { result ≡ false → level.now.kind ≡ Full → above * level.now.size ≤ limit }
{
    match level.kind {
        Kind::Full => above * level.size > LIMIT,
        _ => false,
    }
}

/// The size of the lists of the levels and of the values and of all numbers of positions, or one more than the limit
/// where it is larger. The items go down the levels, as far as the size is not above the limit.
fn add_up(items: &mut [Item], levels: &[Level]) -> u64
    requires levels { length levels.now ≤ 6 }
    requires sizes { All (λ l. l.size < 2 ^ 38) levels.now }
    requires few { length items.old ≤ limit }
    requires ready { AreReady (plain_levels levels.now) 1 (rows_at (6 - length levels.now) items.old) }
    ensures size { result ≡ min (size_from (plain_levels levels.now) 1 (rows_at (6 - length levels.now) items.old)) (limit + 1) }
    ensures kept { rows_first (6 - length levels.now) items.new ≡ rows_first (6 - length levels.now) items.old }
{
    let first = PLACES - levels.len();
    let mut total = 0;
    let mut positions = 1;
    for (k, level) in levels.iter().enumerate() {
        if is_too_long(level, positions) {
            return LIMIT + 1;
        }
        let below = go_down(items, first + k, level, positions);
        total += level_size(level.kind, positions, below);
        if total > LIMIT {
            return LIMIT + 1;
        }
        positions = below;
    }
    (total + positions).min(LIMIT + 1)
}

/// Puts the items back above the first level.
fn restart(items: &mut [Item], first: usize)
    ensures { rows_at first items.new ≡ rows_first first items.old }
{
    for item in items.iter_mut() {
        item.at = 0;
    }
}

/// The size of the lists of the levels and of the values and of all numbers of positions, or one more than the limit
/// where it is larger. The items are above the first level again.
pub fn measure(items: &mut [Item], levels: &[Level]) -> u64
    requires levels { length levels.now ≤ 6 }
    requires sizes { All (λ l. l.size < 2 ^ 38) levels.now }
    requires few { length items.old ≤ limit }
    requires ready { AreReady (plain_levels levels.now) 1 (rows_at (6 - length levels.now) items.old) }
    ensures size { result ≡ min (size_from (plain_levels levels.now) 1 (rows_at (6 - length levels.now) items.old)) (limit + 1) }
    ensures back { rows_at (6 - length levels.now) items.new ≡ rows_first (6 - length levels.now) items.old }
{
    let size = add_up(items, levels);
    restart(items, PLACES - levels.len());
    size
}

/// Adds the lists of the levels and of the values, whose size is at most the limit. The items go down the levels. Fails
/// only where memory is wanting.
pub fn write(
    alloc: Global,
    lists: &mut Buffers,
    items: &mut [Item],
    levels: &[Level],
) -> Result<(), AllocError>
    requires levels { length levels.now ≤ 6 }
    requires sizes { All (λ l. l.size < 2 ^ 38) levels.now }
    requires few { length items.old ≤ limit }
    requires ready { AreReady (plain_levels levels.now) 1 (rows_at (6 - length levels.now) items.old) }
    requires small { size_from (plain_levels levels.now) 1 (rows_at (6 - length levels.now) items.old) ≤ limit }
    ensures { OnOk result (lists.new ≡ lists.old ++ map written (level_buffers (plain_levels levels.now) 1 (rows_at (6 - length levels.now) items.old))) }
{
    let first = PLACES - levels.len();
    let mut positions = 1;
    for (k, level) in levels.iter().enumerate() {
        let below = go_down(items, first + k, level, positions);
        push_level(alloc, lists, items, first + k, level, positions, below)?;
        positions = below;
    }
    lists.push(values(alloc, items, positions)?)?;
    Ok(())
}

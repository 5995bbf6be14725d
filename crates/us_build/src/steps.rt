//! One level down: the position of each item by running counters.
ghost use Rattle.std.specs.Prelude.{◌≡◌, ◌<◌, ◌≤◌, ◌+◌, ◌*◌, ◌^◌, ℕ, map, length, slice_index, All};
ghost use Rattle.us_format.specs.declared.Kind.TheVariants.{Full, Compressed, Listed, Slot};
ghost use Rattle.us_format.specs.Positions.{nodes, count_below};
ghost use Rattle.us_format.specs.Reading.{limit};
ghost use Rattle.us_build.specs.Items.{rows_at, stayed, stepped, IsAscending};
ghost use Rattle.us_build.specs.Ready.{IsReady};

use crate::items::Item;
use crate::levels::Level;
use us_format::Kind;

/// Each position has `size` positions below it.
fn spread(items: &mut [Item], index: usize, size: u64)
    requires index { index < 6 }
    requires small { All (λ x. x.at * size + slice_index x.coordinates index < 2 ^ 64) items.old }
    ensures { items.new ≡ map (stepped Full size index (rows_at index items.old)) items.old }
{
    for item in items.iter_mut() {
        item.above = item.at;
        item.at = item.at * size + item.coordinates[index];
    }
}

/// Each position stays.
fn stay(items: &mut [Item])
    ensures { items.new ≡ map stayed items.old }
{
    for item in items.iter_mut() {
        item.above = item.at;
    }
}

/// Each item has a position of its own.
fn list(items: &mut [Item])
    ensures { (index : ℕ) → IsAscending (rows_at index items.old) → items.new ≡ map (stepped Listed 0 index (rows_at index items.old)) items.old }
{
    for (i, item) in items.iter_mut().enumerate() {
        item.above = item.at;
        item.at = i as u64;
    }
}

/// How many nodes there are with one more item, where `parent` and `coordinate` are the last of `count` nodes.
fn counted(count: u64, parent: u64, coordinate: u64, item: &Item, index: usize) -> u64
    requires index { index < 6 }
    requires fits { count < 2 ^ 63 }
    ensures first { count ≡ 0 → result ≡ 1 }
    ensures old { 0 < count → parent ≡ item.now.at → coordinate ≡ slice_index item.now.coordinates index → result ≡ count }
    ensures new { 0 < count → (parent ≡ item.now.at → coordinate ≡ slice_index item.now.coordinates index → ⊥) → result ≡ count + 1 }
{
    if count > 0 && parent == item.at && coordinate == item.coordinates[index] {
        count
    } else {
        count + 1
    }
}

/// Each different pair of a position and a coordinate has a position; answers how many there are.
fn number(items: &mut [Item], index: usize) -> u64
    requires index { index < 6 }
    requires ascending { IsAscending (rows_at index items.old) }
    ensures items { items.new ≡ map (stepped Compressed 0 index (rows_at index items.old)) items.old }
    ensures count { result ≡ length (nodes Compressed (rows_at index items.old)) }
    ensures few { result ≤ length items.old }
{
    let mut count = 0;
    let mut parent = 0;
    let mut coordinate = 0;
    for item in items.iter_mut() {
        count = counted(count, parent, coordinate, item, index);
        parent = item.at;
        coordinate = item.coordinates[index];
        item.above = parent;
        item.at = count - 1;
    }
    count
}

/// Moves the items down a level, before which there are so many positions; answers how many there are behind it. The
/// level's coordinates stand at `index`.
pub fn go_down(items: &mut [Item], index: usize, level: &Level, positions: u64) -> u64
    requires index { index < 6 }
    requires ready { IsReady level.now.kind level.now.size positions (rows_at index items.old) }
    requires few { length items.old ≤ limit }
    requires positions { positions ≤ limit }
    requires full { level.now.kind ≡ Full → positions * level.now.size ≤ limit }
    ensures items { items.new ≡ map (stepped level.now.kind level.now.size index (rows_at index items.old)) items.old }
    ensures count { result ≡ count_below level.now.kind level.now.size positions (rows_at index items.old) }
    ensures few { result ≤ limit }
{
    match level.kind {
        Kind::Full => {
            spread(items, index, level.size);
            positions * level.size
        }
        Kind::Compressed => number(items, index),
        Kind::Listed => {
            list(items);
            items.len() as u64
        }
        Kind::Slot => {
            stay(items);
            positions
        }
    }
}

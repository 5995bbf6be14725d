//! The cells of one level, by the items one level down, and the cells of the values.
ghost use Rattle.std.specs.Prelude.{◌≡◌, ◌<◌, ◌≤◌, ◌+◌, ◌-◌, ◌^◌, ◌++◌, ◌⊎◌, pos, length, map, All, AllPairs, IfOk, OnOk, slice_index, vec_len};
ghost use Rattle.std.specs.List.{range_with_len};
ghost use Rattle.std.proofs.Common.{replicate};
ghost use Rattle.us_format.specs.declared.Kind.TheVariants.{Full, Compressed, Listed, Slot};
ghost use Rattle.us_format.specs.Buffers.{buffers_at, cell_of};
ghost use Rattle.us_format.specs.Lists.{head};
ghost use Rattle.us_format.specs.Packs.{written};
ghost use Rattle.us_format.specs.Positions.{count_below};
ghost use Rattle.us_format.specs.Reading.{limit};
ghost use Rattle.us_build.specs.Items.{rows_at, rows_above};
ghost use Rattle.us_build.specs.Cells.{first_position, BeginsWith, IsBelow};

use crate::items::Item;
use crate::levels::Level;
use std::alloc::{AllocError, Global};
use us_format::Kind;
use us_matrix::Buffers;

/// Adds cells of this value until there are so many.
fn fill(cells: &mut Vec<i64>, count: u64, value: u64) -> Result<(), AllocError>
    requires { value < 2 ^ 63 }
    ensures { OnOk result (cells.new.items ≡ cells.old.items ++ replicate (count - length cells.old.items) (pos value)) }
{
    while (cells.len() as u64) < count {
        cells.push(value as i64)?;
    }
    Ok(())
}

/// For each of the positions above, and for their number, the position below of the first item that comes from there or
/// from behind; `count` where there is none.
fn starts(alloc: Global, items: &[Item], above: u64, count: u64) -> Result<Vec<i64>, AllocError>
    requires above { above < 2 ^ 63 }
    requires count { count < 2 ^ 63 }
    requires within { All (λ x. x.above < above) items.now }
    requires small { All (λ x. x.at < 2 ^ 63) items.now }
    ensures { IfOk result (λ v. v.items ≡ map (λ x. pos (first_position count x items.now)) (range_with_len 0 (above + 1))) }
{
    let mut cells = Vec::new(alloc);
    for item in items {
        fill(&mut cells, item.above + 1, item.at)?;
    }
    fill(&mut cells, above + 1, count)?;
    Ok(cells)
}

/// So many cells of 0.
fn zeros(alloc: Global, count: usize) -> Result<Vec<i64>, AllocError>
    ensures { IfOk result (λ v. v.items ≡ replicate count (pos 0)) }
{
    vec![in alloc; 0i64; count]
}

/// The coordinate of the items at each of so many positions, 0 where there is none.
fn coordinates(
    alloc: Global,
    items: &[Item],
    index: usize,
    positions: u64,
) -> Result<Vec<i64>, AllocError>
    requires index { index < 6 }
    requires positions { positions < 2 ^ 63 }
    requires within { All (λ x. x.at < positions) items.now }
    requires small { All (λ x. slice_index x.coordinates index < 2 ^ 63) items.now }
    requires alike { AllPairs (λ x y. x.at ≡ y.at → slice_index x.coordinates index ≡ slice_index y.coordinates index) items.now }
    ensures { IfOk result (λ v. v.items ≡ map (cell_of (λ r. r.at) (λ r. pos (head r.rest)) (rows_at index items.now)) (range_with_len 0 positions)) }
{
    let mut cells = zeros(alloc, positions as usize)?;
    for item in items {
        cells[item.at as usize] = item.coordinates[index] as i64;
    }
    Ok(cells)
}

/// The value of the items at each of so many positions, 0 where there is none.
pub fn values(alloc: Global, items: &[Item], positions: u64) -> Result<Vec<i64>, AllocError>
    requires positions { positions < 2 ^ 63 }
    requires within { All (λ x. x.at < positions) items.now }
    requires alike { AllPairs (λ x y. x.at ≡ y.at → x.value ≡ y.value) items.now }
    ensures { IfOk result (λ v. v.items ≡ map (cell_of (λ r. r.at) (λ r. r.value) (rows_at 6 items.now)) (range_with_len 0 positions)) }
{
    let mut cells = zeros(alloc, positions as usize)?;
    for item in items {
        cells[item.at as usize] = item.value;
    }
    Ok(cells)
}

/// Adds the lists of a level that numbers its nodes: where the nodes of each position above begin, and the nodes'
/// coordinates.
fn push_numbered(
    alloc: Global,
    buffers: &mut Buffers,
    items: &[Item],
    index: usize,
    level: &Level,
    above: u64,
    positions: u64,
) -> Result<(), AllocError>
    requires index { index < 6 }
    requires kind { (level.now.kind ≡ Compressed) ⊎ (level.now.kind ≡ Listed) }
    requires below { IsBelow level.now.kind level.now.size above index items.now }
    requires size { level.now.size < 2 ^ 38 }
    requires above { above ≤ limit }
    requires positions { positions ≤ limit }
    requires count { positions ≡ count_below level.now.kind level.now.size above (rows_above index items.now) }
    ensures lists { OnOk result (buffers.new ≡ buffers.old ++ map written (buffers_at level.now.kind level.now.size above (rows_above index items.now))) }
    ensures kept { BeginsWith buffers.new buffers.old }
{
    buffers.push(starts(alloc, items, above, positions)?)?;
    buffers.push(coordinates(alloc, items, index, positions)?)
}

/// Adds the lists of a level that the items have gone down, from `above` positions to `positions`. The level's
/// coordinates stand at `index`. Fails only where memory is wanting; the lists that were there before stand then too.
pub fn push_level(
    alloc: Global,
    buffers: &mut Buffers,
    items: &[Item],
    index: usize,
    level: &Level,
    above: u64,
    positions: u64,
) -> Result<(), AllocError>
    requires index { index < 6 }
    requires below { IsBelow level.now.kind level.now.size above index items.now }
    requires size { level.now.size < 2 ^ 38 }
    requires above { above ≤ limit }
    requires positions { positions ≤ limit }
    requires count { positions ≡ count_below level.now.kind level.now.size above (rows_above index items.now) }
    ensures lists { OnOk result (buffers.new ≡ buffers.old ++ map written (buffers_at level.now.kind level.now.size above (rows_above index items.now))) }
    ensures kept { BeginsWith buffers.new buffers.old }
{
    match level.kind {
        Kind::Full => Ok(()),
        Kind::Compressed => push_numbered(alloc, buffers, items, index, level, above, positions),
        Kind::Listed => push_numbered(alloc, buffers, items, index, level, above, positions),
        Kind::Slot => buffers.push(coordinates(alloc, items, index, positions)?),
    }
}

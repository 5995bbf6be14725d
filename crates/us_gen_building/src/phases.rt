//! The phases that build the buffers of a part.

ghost use Rattle.std.specs.Prelude.{◌≡◌, ◌+◌, ◌*◌, ◌<◌, ◌≤◌, ◌^◌, length, map, IfOk, MatchOption};
ghost use Rattle.us_code.specs.Plain.{tree_of, phase_tree};
ghost use Rattle.us_gen_build.specs.Levels.{level_trees, HaveNames};
ghost use Rattle.us_gen_building.specs.Phases as phases;

use crate::levels::{built_levels, columns_of, counted_levels, dim_lines, group_count};
use crate::part::{Descent, PartLevel, PartLoops};
use sqlite_items::Items;
use std::alloc::{AllocError, Global};
use us_code::{Block, CellKind, Dim, Make, Makes, Numbers, Phase, Phases};
use us_gen_build::{BuildLevel, Role, build_block, new_buffers, order_block};

/// The buffer of the places of the entries in order.
pub fn order_of(keys: Option<usize>, first: u32) -> Option<u32>
    ensures { result ≡ phases.order_of keys first }
{
    match keys {
        None => None,
        Some(_) => Some(first),
    }
}

/// The first register of a column.
pub fn first_column(order: Option<u32>, turn: u32) -> u32
    requires { turn + 2 < 2 ^ 32 }
    ensures value { result ≡ phases.first_column order turn }
    ensures small { result < turn + 3 }
{
    match order {
        None => turn + 1,
        Some(_) => turn + 2,
    }
}

/// Above the first level.
pub fn top_of(dims: u32, first: u32, register: u32) -> Descent
    ensures { result ≡ phases.top_of dims first register }
{
    Descent {
        is_top: true,
        is_rank: false,
        above: Dim::Number(1),
        dims,
        first,
        register,
    }
}

/// The new buffer of an order.
fn order_makes(
    alloc: Global,
    keys: Option<usize>,
    first: u32,
    count: u32,
) -> Result<Makes, AllocError>
    ensures { IfOk result (λ ms. ms ≡ phases.order_makes keys first count) }
{
    let places = Make {
        buf: first,
        len: Dim::Name(count),
        cell: CellKind::Below(Dim::Name(count)),
    };
    match keys {
        None => Ok(Makes::new(alloc)),
        Some(_) => Makes::from_slice(alloc, &[places]),
    }
}

/// Orders the entries by their coordinates at the first levels.
fn order_code(
    alloc: Global,
    keys: Option<usize>,
    levels: &[PartLevel],
    first: u32,
) -> Result<Block, AllocError>
    requires { MatchOption keys (Unit {0}) (λ k. k ≤ length levels.now) }
    ensures { IfOk result (λ b. tree_of b ≡ phases.order_code keys levels.now first) }
{
    match keys {
        None => Ok(Block::new(alloc)),
        Some(count) => {
            let columns = columns_of(alloc, &levels[..count])?;
            order_block(alloc, first, columns.as_slice())
        }
    }
}

/// The loop over the entries that counts the nodes of levels, if there are any.
fn count_code(
    alloc: Global,
    count: u32,
    order: Option<u32>,
    levels: &[PartLevel],
    turn: u32,
    first: u32,
    end: u32,
) -> Result<Block, AllocError>
    requires turn { turn + length levels.now + 4 < 2 ^ 32 }
    requires first { first + 4 * length levels.now < 2 ^ 32 }
    requires end { end + 3 * length levels.now + 3 < 2 ^ 32 }
    ensures { IfOk result (λ b. tree_of b ≡ phases.count_code count order levels.now turn first end) }
{
    match levels {
        [] => Ok(Block::new(alloc)),
        [_, ..] => {
            let columns = columns_of(alloc, levels)?;
            let counted = counted_levels(alloc, levels, first, first_column(order, turn))?;
            let entries = Dim::Name(count);
            build_block(
                alloc,
                entries,
                order,
                columns.as_slice(),
                counted.as_slice(),
                turn,
                end,
            )
        }
    }
}

/// The phase that orders the entries, counts nodes, and gives all numbers of positions. It takes numbers as both phases do,
/// and fails only for want of memory.
pub fn counting_phase(alloc: Global, part: &PartLoops, first: u32) -> Result<Phase, AllocError>
    requires keys { MatchOption part.now.keys (Unit {0}) (λ k. k ≤ length part.now.levels.items) }
    requires room { first + phases.room part.now < 2 ^ 32 }
    ensures { IfOk result (λ p. phase_tree p ≡ phases.counting_phase part.now first) }
{
    let levels = part.levels.as_slice();
    let number = levels.len() as u32;
    let order = order_of(part.keys, first);
    let turn = first + 1;
    let counted_from = first + number + 4;
    let dims_from = first + 5 * number + 4;
    let top = top_of(dims_from, counted_from, first_column(order, turn));
    let grouped = group_count(levels);
    let groups = &levels[..grouped];
    let mut body = order_code(alloc, part.keys, levels, first)?;
    let counting = count_code(
        alloc,
        part.count,
        order,
        groups,
        turn,
        counted_from,
        dims_from,
    )?;
    body.append(counting)?;
    Ok(Phase {
        makes: order_makes(alloc, part.keys, first, part.count)?,
        body,
        dims: dim_lines(alloc, part.count, levels, top)?,
    })
}

/// The columns of coordinates, and that of values. It fails only for want of memory.
pub fn all_columns(alloc: Global, part: &PartLoops) -> Result<Vec<u32>, AllocError>
    ensures { IfOk result (λ v. v.items ≡ phases.all_columns part.now) }
{
    let mut columns = columns_of(alloc, part.levels.as_slice())?;
    columns.push(part.values)?;
    Ok(columns)
}

/// The levels of the loop that builds.
fn all_built(alloc: Global, part: &PartLoops, first: u32) -> Result<Vec<BuildLevel>, AllocError>
    requires room { first + phases.room part.now < 2 ^ 32 }
    ensures trees { IfOk result (λ v. level_trees v.items ≡ phases.all_built part.now first) }
    ensures names { IfOk result (λ v. HaveNames v.items) }
    ensures number { IfOk result (λ v. length v.items ≡ length part.now.levels.items + 1) }
{
    let levels = part.levels.as_slice();
    let number = levels.len() as u32;
    let order = order_of(part.keys, first);
    let turn = first + 7 * number + 4;
    let top = top_of(
        first + 5 * number + 4,
        first + 8 * number + 8,
        first_column(order, turn),
    );
    built_levels(alloc, part.count, levels, top)
}

/// The phase that makes the buffers and fills them.
fn building_phase(alloc: Global, part: &PartLoops, first: u32) -> Result<Phase, AllocError>
    requires room { first + phases.room part.now < 2 ^ 32 }
    ensures { IfOk result (λ p. phase_tree p ≡ phases.building_phase part.now first) }
{
    let number = part.levels.len() as u32;
    let order = order_of(part.keys, first);
    let columns = all_columns(alloc, part)?;
    let levels = all_built(alloc, part, first)?;
    let turn = first + 7 * number + 4;
    let end = first + 12 * number + 12;
    let entries = Dim::Name(part.count);
    let body = build_block(
        alloc,
        entries,
        order,
        columns.as_slice(),
        levels.as_slice(),
        turn,
        end,
    )?;
    Ok(Phase {
        makes: new_buffers(alloc, levels.as_slice())?,
        body,
        dims: Items::new(alloc),
    })
}

/// The phases that build the buffers of a part before packing, from columns of its entries. They take numbers from `first`
/// on: 15 for each level and 20. It fails only for want of memory.
pub fn build_phases(alloc: Global, part: &PartLoops, first: u32) -> Result<Phases, AllocError>
    requires keys { MatchOption part.now.keys (Unit {0}) (λ k. k ≤ length part.now.levels.items) }
    requires room { first + phases.room part.now < 2 ^ 32 }
    ensures { IfOk result (λ ps. map phase_tree ps ≡ phases.building_phases part.now first) }
{
    let mut made = Items::new(alloc);
    made.push(counting_phase(alloc, part, first)?)?;
    made.push(building_phase(alloc, part, first)?)?;
    Ok(made)
}

/// The new buffers of a level.
fn level_buffers(alloc: Global, level: &BuildLevel) -> Result<Numbers, AllocError>
    requires { level.now.first + 4 < 2 ^ 32 }
    ensures { IfOk result (λ bs. bs ≡ phases.level_buffers level.now.role level.now.first) }
{
    let first = level.first;
    match level.role {
        Role::Full => Ok(Items::new(alloc)),
        Role::Shared => Items::from_slice(alloc, &[first, first + 1]),
        Role::Single => Items::from_slice(alloc, &[first, first + 1]),
        Role::AtPosition => Items::from_slice(alloc, &[first + 1]),
        Role::AtRank => Items::from_slice(alloc, &[first + 1]),
        Role::Counted => Ok(Items::new(alloc)),
        Role::Marked => Items::from_slice(alloc, &[first]),
        Role::Kept => Ok(Items::new(alloc)),
    }
}

/// The new buffers of levels, in order. It fails only for want of memory.
pub fn buffers_of(alloc: Global, levels: &[BuildLevel]) -> Result<Numbers, AllocError>
    requires { HaveNames levels.now }
    ensures { IfOk result (λ bs. bs ≡ phases.all_buffers (level_trees levels.now)) }
{
    match levels {
        [] => Ok(Items::new(alloc)),
        [level, rest @ ..] => {
            let mut buffers = level_buffers(alloc, level)?;
            buffers.append(buffers_of(alloc, rest)?)?;
            Ok(buffers)
        }
    }
}

/// The buffers that the phases fill: those of the levels in order, and the values. It fails only for want of memory.
pub fn built_buffers(alloc: Global, part: &PartLoops, first: u32) -> Result<Numbers, AllocError>
    requires room { first + phases.room part.now < 2 ^ 32 }
    ensures { IfOk result (λ bs. bs ≡ phases.all_buffers (phases.all_built part.now first)) }
{
    let levels = all_built(alloc, part, first)?;
    buffers_of(alloc, levels.as_slice())
}

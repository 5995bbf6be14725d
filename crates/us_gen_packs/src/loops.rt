//! The loop over the entries, and the block that builds the buffers of levels and packs.

ghost use Rattle.std.specs.Prelude.{◌≡◌, ◌+◌, ◌*◌, ◌<◌, ◌^◌, length, IfOk};
ghost use Rattle.us_code.specs.Plain.{tree_of};
ghost use Rattle.us_gen_build.specs.Levels.{level_trees, HaveNames};
ghost use Rattle.us_gen_packs.specs.Packs as parts;
ghost use Rattle.us_gen_packs.specs.Packs.{pack_trees, HavePlaces};

use crate::packs::{PackWriter, last_position, write_packs};
use std::alloc::{AllocError, Global};
use us_code::{Block, Dim, Term};
use us_gen_build::{BuildLevel, close_levels, each_level, open_levels, turns_over};

/// The loop over `count` entries, in the order of a buffer of places or in their own: each turn loads the cells of the
/// columns, goes through the levels, and fills the packs at the last position. Registers from `turn` on are the loop's own,
/// one for the turn, one for the place if there is an order, and one for each column. It fails only for want of memory.
pub fn packed_loop(
    alloc: Global,
    count: Dim,
    order: Option<u32>,
    columns: &[u32],
    levels: &[BuildLevel],
    packs: &[PackWriter],
    turn: u32,
) -> Result<Block, AllocError>
    requires room { turn + length columns.now + 3 < 2 ^ 32 }
    requires names { HaveNames levels.now }
    requires places { HavePlaces packs.now }
    ensures { IfOk result (λ b. tree_of b ≡ parts.packed_loop count order columns.now (level_trees levels.now) (pack_trees packs.now) turn) }
{
    let top = Term::Number(0);
    let mut inner = each_level(alloc, levels, &top, turn)?;
    let last = last_position(alloc, levels, &top, turn)?;
    inner.append(write_packs(alloc, packs, &last, turn)?)?;
    turns_over(alloc, count, order, columns, turn, inner)
}

/// The block that builds the buffers of levels and packs from `count` entries, the outermost level first: the registers of
/// the levels, the loop over the entries, and the end of each `pos`. Registers from `turn` on are the loop's own, and three
/// for each level from `next` on. It fails only for want of memory.
pub fn packed_block(
    alloc: Global,
    count: Dim,
    order: Option<u32>,
    columns: &[u32],
    levels: &[BuildLevel],
    packs: &[PackWriter],
    turn: u32,
    next: u32,
) -> Result<Block, AllocError>
    requires room { turn + length columns.now + 3 < 2 ^ 32 }
    requires behind { next + 3 * length levels.now + 3 < 2 ^ 32 }
    requires names { HaveNames levels.now }
    requires places { HavePlaces packs.now }
    ensures { IfOk result (λ b. tree_of b ≡ parts.packed_block count order columns.now (level_trees levels.now) (pack_trees packs.now) turn next) }
{
    let mut block = packed_loop(alloc, count, order, columns, levels, packs, turn)?;
    block.append(close_levels(alloc, levels, next)?)?;
    open_levels(alloc, levels, block)
}

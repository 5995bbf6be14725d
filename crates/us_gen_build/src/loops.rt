//! The loop over the entries, and the block that builds the buffers of levels.

ghost use Rattle.std.specs.Prelude.{◌≡◌, ◌+◌, ◌*◌, ◌<◌, ◌^◌, length, IfOk};
ghost use Rattle.us_code.specs.Plain.{term_tree, tree_of};
ghost use Rattle.us_gen.specs.Levels.{size_term};
ghost use Rattle.us_gen_build.specs.Blocks as blocks;
ghost use Rattle.us_gen_build.specs.Levels.{level_tree, level_trees, HaveNames};
ghost use Rattle.us_gen_build.specs.Loops as loops;

use crate::levels::{BuildLevel, Role, each_level, open_levels};
use std::alloc::{AllocError, Global};
use us_code::{Block, Buf, Dim, Term, for_below, if_else, load, put, set, var};

/// A dim as a term.
fn dim_term(dim: Dim) -> Term
    ensures { term_tree result ≡ size_term dim }
{
    match dim {
        Dim::Number(n) => Term::Number(n),
        Dim::Name(d) => Term::Size(Dim::Name(d)),
        Dim::Len(k) => Term::Size(Dim::Len(k)),
    }
}

/// The register of the entry of a turn.
fn entry_of(order: Option<u32>, turn: u32) -> u32
    requires { turn + 1 < 2 ^ 32 }
    ensures value { result ≡ loops.entry_of order turn }
    ensures small { result < turn + 2 }
{
    match order {
        None => turn,
        Some(_) => turn + 1,
    }
}

/// Loads the entry of a turn from an order, and goes on with a block.
fn pick(alloc: Global, order: Option<u32>, turn: u32, inner: Block) -> Result<Block, AllocError>
    requires { turn + 1 < 2 ^ 32 }
    ensures { IfOk result (λ b. tree_of b ≡ loops.picked order turn (tree_of inner)) }
{
    match order {
        None => Ok(inner),
        Some(places) => {
            let cell = load(turn + 1, Buf::New(places), Term::Reg(turn));
            let mut block = Block::of(alloc, cell)?;
            block.append(inner)?;
            Ok(block)
        }
    }
}

/// Loads the cells of columns at the place in a register, and goes on with a block.
fn load_columns(
    alloc: Global,
    columns: &[u32],
    next: u32,
    entry: u32,
    inner: Block,
) -> Result<Block, AllocError>
    requires { next + length columns.now < 2 ^ 32 }
    ensures { IfOk result (λ b. tree_of b ≡ loops.loads columns.now next entry (tree_of inner)) }
{
    match columns {
        [] => Ok(inner),
        [column, rest @ ..] => {
            let cell = load(next, Buf::New(*column), Term::Reg(entry));
            let mut block = Block::of(alloc, cell)?;
            block.append(load_columns(alloc, rest, next + 1, entry, inner)?)?;
            Ok(block)
        }
    }
}

/// The loop over `count` entries, in the order of a buffer of places or in their own: each turn loads the cells of the
/// columns, and goes on with a block. Registers from `turn` on are the loop's own, one for the turn, one for the place if
/// there is an order, and one for each column. It fails only for want of memory.
pub fn turns_over(
    alloc: Global,
    count: Dim,
    order: Option<u32>,
    columns: &[u32],
    turn: u32,
    inner: Block,
) -> Result<Block, AllocError>
    requires { turn + length columns.now + 3 < 2 ^ 32 }
    ensures { IfOk result (λ b. tree_of b ≡ loops.turns_over count order columns.now turn (tree_of inner)) }
{
    let entry = entry_of(order, turn);
    let loaded = load_columns(alloc, columns, entry + 1, entry, inner)?;
    let body = pick(alloc, order, turn, loaded)?;
    Block::of(alloc, for_below(turn, count, body))
}

/// The loop over `count` entries, in the order of a buffer of places or in their own: each turn loads the cells of the
/// columns, and goes through the levels. Registers from `turn` on are the loop's own, one for the turn, one for the
/// place if there is an order, and one for each column. It fails only for want of memory.
pub fn entry_loop(
    alloc: Global,
    count: Dim,
    order: Option<u32>,
    columns: &[u32],
    levels: &[BuildLevel],
    turn: u32,
) -> Result<Block, AllocError>
    requires room { turn + length columns.now + 3 < 2 ^ 32 }
    requires names { HaveNames levels.now }
    ensures { IfOk result (λ b. tree_of b ≡ loops.entry_loop count order columns.now (level_trees levels.now) turn) }
{
    let inner = each_level(alloc, levels, &Term::Number(0), turn)?;
    turns_over(alloc, count, order, columns, turn, inner)
}

/// Makes each cell of a buffer the greatest of those up to it. Registers `next` to `next + 2` are its own. It fails only
/// for want of memory.
pub fn fill_up(alloc: Global, buf: u32, length: Dim, next: u32) -> Result<Block, AllocError>
    requires { next + 3 < 2 ^ 32 }
    ensures { IfOk result (λ b. tree_of b ≡ loops.fill_up buf length next) }
{
    let raise = set(Buf::New(buf), Term::Reg(next + 1), Term::Reg(next));
    let lower = Block::of(alloc, raise)?;
    let greater = Block::of(alloc, put(next, Term::Reg(next + 2)))?;
    let cell = load(next + 2, Buf::New(buf), Term::Reg(next + 1));
    let mut turn = Block::of(alloc, cell)?;
    turn.push(if_else(
        Term::Reg(next + 2),
        false,
        Term::Reg(next),
        lower,
        Some(greater),
    ))?;
    let mut block = Block::of(alloc, var(next, Term::Number(0)))?;
    block.push(for_below(next + 1, length, turn))?;
    Ok(block)
}

/// Sets the last cell of a level's `pos`, or fills `pos` up, and goes on with a block.
fn close_pos(alloc: Global, level: &BuildLevel, next: u32, rest: Block) -> Result<Block, AllocError>
    requires { next + 3 < 2 ^ 32 }
    ensures { IfOk result (λ b. tree_of b ≡ blocks.close_pos level.now.is_top (level_tree level.now) next (tree_of rest)) }
{
    if level.is_top {
        let end = dim_term(level.crd_length);
        let mut block = Block::of(alloc, set(Buf::New(level.first), Term::Number(1), end))?;
        block.append(rest)?;
        Ok(block)
    } else {
        let mut block = fill_up(alloc, level.first, level.pos_length, next)?;
        block.append(rest)?;
        Ok(block)
    }
}

/// What stands behind the loop for a level, in front of a block.
fn close_level(
    alloc: Global,
    level: &BuildLevel,
    next: u32,
    rest: Block,
) -> Result<Block, AllocError>
    requires { next + 3 < 2 ^ 32 }
    ensures { IfOk result (λ b. tree_of b ≡ blocks.close_of level.now.role (level_tree level.now) next (tree_of rest)) }
{
    match level.role {
        Role::Full => Ok(rest),
        Role::Shared => close_pos(alloc, level, next, rest),
        Role::Single => close_pos(alloc, level, next, rest),
        Role::AtPosition => Ok(rest),
        Role::AtRank => Ok(rest),
        Role::Counted => Ok(rest),
        Role::Marked => close_pos(alloc, level, next, rest),
        Role::Kept => Ok(rest),
    }
}

/// What stands behind the loop for each level. It fails only for want of memory.
pub fn close_levels(alloc: Global, levels: &[BuildLevel], next: u32) -> Result<Block, AllocError>
    requires { next + 3 * length levels.now + 3 < 2 ^ 32 }
    ensures { IfOk result (λ b. tree_of b ≡ blocks.closes (level_trees levels.now) next) }
{
    match levels {
        [] => Ok(Block::new(alloc)),
        [level, rest @ ..] => {
            let others = close_levels(alloc, rest, next + 3)?;
            close_level(alloc, level, next, others)
        }
    }
}

/// The block that builds the buffers of levels from `count` entries, the outermost level first: the registers of the
/// levels, the loop over the entries, and the end of each `pos`. Registers from `turn` on are the loop's own, and three
/// for each level from `next` on. It fails only for want of memory.
pub fn build_block(
    alloc: Global,
    count: Dim,
    order: Option<u32>,
    columns: &[u32],
    levels: &[BuildLevel],
    turn: u32,
    next: u32,
) -> Result<Block, AllocError>
    requires room { turn + length columns.now + 3 < 2 ^ 32 }
    requires behind { next + 3 * length levels.now + 3 < 2 ^ 32 }
    requires names { HaveNames levels.now }
    ensures { IfOk result (λ b. tree_of b ≡ blocks.build_block count order columns.now (level_trees levels.now) turn next) }
{
    let mut block = entry_loop(alloc, count, order, columns, levels, turn)?;
    block.append(close_levels(alloc, levels, next)?)?;
    open_levels(alloc, levels, block)
}

//! What the loop over the entries does at each pack.

ghost use Rattle.std.specs.Prelude.{◌≡◌, ◌+◌, ◌<◌, ◌^◌, length, IfOk};
ghost use Rattle.us_code.specs.Plain.{term_tree, tree_of};
ghost use Rattle.us_gen_build.specs.Levels.{level_trees, HaveNames};
ghost use Rattle.us_gen_packs.specs.Packs as parts;
ghost use Rattle.us_gen_packs.specs.Packs.{pack_tree, pack_trees, trees, HavePlaces};

use sqlite_items::Items;
use std::alloc::{AllocError, Global};
use us_code::{Block, Buf, Dim, Term, flat, set, when};
use us_gen_build::BuildLevel;

/// Terms, in order.
pub type Terms = Items<Term>;

/// A pack in the loop over the entries. Of `w` columns, cell `z * w + y` is what column `y` has at position `z`.
#[derive(Drop)]
pub struct PackWriter {
    /// The new buffer, and a register of the pack's own.
    pub first: u32,
    /// The dim of the cells: the positions times the columns.
    pub cells: u32,
    /// The positions.
    pub length: Dim,
    /// Whether each entry's position is its turn.
    pub at_rank: bool,
    /// The number that each column gets of an entry.
    pub columns: Terms,
}

impl PackWriter {
    /// Sets the cells of columns from number `y` on at a place, and goes on with a block.
    fn cells_from(
        &self,
        alloc: Global,
        place: &Term,
        y: u64,
        columns: &[Term],
        inner: Block,
    ) -> Result<Block, AllocError>
        requires { y + length columns.now < 2 ^ 63 }
        ensures { IfOk result (λ b. tree_of b ≡ parts.cells_from self.now.first self.now.cells (term_tree place.now) y (trees columns.now) (tree_of inner)) }
    {
        match columns {
            [] => Ok(inner),
            [column, rest @ ..] => {
                let at = flat(alloc, self.cells, place.copy(alloc)?, Term::Number(y))?;
                let cell = set(Buf::New(self.first), at, column.copy(alloc)?);
                let mut block = Block::of(alloc, cell)?;
                block.append(self.cells_from(alloc, place, y + 1, rest, inner)?)?;
                Ok(block)
            }
        }
    }

    /// Sets the cells of the columns at a position, and goes on with a block. The turn is in register `turn`.
    fn write(
        &self,
        alloc: Global,
        position: &Term,
        turn: u32,
        inner: Block,
    ) -> Result<Block, AllocError>
        requires { length self.now.columns < 2 ^ 32 }
        ensures { IfOk result (λ b. tree_of b ≡ parts.write self.now.at_rank (pack_tree self.now) (term_tree position.now) turn (tree_of inner)) }
    {
        let columns = self.columns.as_slice();
        if self.at_rank {
            self.cells_from(alloc, &Term::Reg(turn), 0, columns, inner)
        } else {
            let end = Block::new(alloc);
            let cells = self.cells_from(alloc, &Term::Reg(self.first), 0, columns, end)?;
            let test = when(position.copy(alloc)?, self.length, self.first, cells);
            let mut block = Block::of(alloc, test)?;
            block.append(inner)?;
            Ok(block)
        }
    }
}

/// What the loop over the entries does at each pack, in order, at a position. The turn is in register `turn`. It fails only
/// for want of memory.
pub fn write_packs(
    alloc: Global,
    packs: &[PackWriter],
    position: &Term,
    turn: u32,
) -> Result<Block, AllocError>
    requires { HavePlaces packs.now }
    ensures { IfOk result (λ b. tree_of b ≡ parts.packs (pack_trees packs.now) (term_tree position.now) turn) }
{
    match packs {
        [] => Ok(Block::new(alloc)),
        [pack, rest @ ..] => {
            let inner = write_packs(alloc, rest, position, turn)?;
            pack.write(alloc, position, turn, inner)
        }
    }
}

/// The term of the position behind levels that stand under a position. The turn is in register `turn`. It fails only for
/// want of memory.
pub fn last_position(
    alloc: Global,
    levels: &[BuildLevel],
    position: &Term,
    turn: u32,
) -> Result<Term, AllocError>
    requires { HaveNames levels.now }
    ensures { IfOk result (λ t. term_tree t ≡ parts.last_of (level_trees levels.now) (term_tree position.now) turn) }
{
    match levels {
        [] => position.copy(alloc),
        [level, rest @ ..] => {
            let below = level.below(alloc, position, turn)?;
            last_position(alloc, rest, &below, turn)
        }
    }
}

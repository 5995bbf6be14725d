//! The phase that reads extents.

ghost use Rattle.std.specs.Prelude.{◌≡◌, ◌+◌, ◌<◌, ◌^◌, length, map, IfOk};
ghost use Rattle.us_code.specs.Plain.{line_tree, phase_tree, tree_of};
ghost use Rattle.us_gen_extents.specs.Extents as extents;

use sqlite_items::Items;
use std::alloc::{AllocError, Global};
use us_code::{Block, Buf, DimLine, DimLines, Makes, Phase, Term, load};

/// Loads the one cell of each buffer, in registers from `register` on.
fn load_cells(alloc: Global, buffers: &[u32], register: u32) -> Result<Block, AllocError>
    requires { register + length buffers.now < 2 ^ 32 }
    ensures { IfOk result (λ b. tree_of b ≡ extents.load_cells buffers.now register) }
{
    match buffers {
        [] => Ok(Block::new(alloc)),
        [buffer, rest @ ..] => {
            let cell = load(register, Buf::New(*buffer), Term::Number(0));
            let mut block = Block::of(alloc, cell)?;
            block.append(load_cells(alloc, rest, register + 1)?)?;
            Ok(block)
        }
    }
}

/// A dim for each register from `register` on, as many as there are buffers.
fn cell_dims(alloc: Global, buffers: &[u32], register: u32) -> Result<DimLines, AllocError>
    requires { register + length buffers.now < 2 ^ 32 }
    ensures { IfOk result (λ ls. map line_tree ls ≡ extents.cell_dims buffers.now register) }
{
    match buffers {
        [] => Ok(Items::new(alloc)),
        [_, rest @ ..] => {
            let mut lines = Items::new(alloc);
            lines.push(DimLine::Of {
                dim: register,
                value: Term::Reg(register),
            })?;
            lines.append(cell_dims(alloc, rest, register + 1)?)?;
            Ok(lines)
        }
    }
}

/// The phase that makes a dim of the one cell of each buffer, numbered from `first` on. It fails only for want of memory.
pub fn extents_phase(alloc: Global, buffers: &[u32], first: u32) -> Result<Phase, AllocError>
    requires { first + length buffers.now < 2 ^ 32 }
    ensures { IfOk result (λ p. phase_tree p ≡ extents.extents_phase buffers.now first) }
{
    Ok(Phase {
        makes: Makes::new(alloc),
        body: load_cells(alloc, buffers, first)?,
        dims: cell_dims(alloc, buffers, first)?,
    })
}

//! The new buffers of levels.

ghost use Rattle.std.specs.Prelude.{◌≡◌, ◌+◌, ◌<◌, ◌^◌, IfOk, []};
ghost use Rattle.us_gen_build.specs.Levels.{level_tree, level_trees, HaveNames};
ghost use Rattle.us_gen_build.specs.Making.{makes, makes_of, words};

use crate::levels::{BuildLevel, Role};
use std::alloc::{AllocError, Global};
use us_code::{CellKind, Dim, Make, Makes};

/// A new buffer of words.
fn words_in(buf: u32, len: Dim) -> Make
    ensures { result ≡ words buf len }
{
    Make {
        buf,
        len,
        cell: CellKind::Word,
    }
}

/// The new buffers of a level.
fn level_buffers(alloc: Global, level: &BuildLevel) -> Result<Makes, AllocError>
    requires { level.now.first + 4 < 2 ^ 32 }
    ensures { IfOk result (λ ms. ms ≡ makes_of level.now.role (level_tree level.now) []) }
{
    let pos = words_in(level.first, level.pos_length);
    let crd = words_in(level.first + 1, level.crd_length);
    match level.role {
        Role::Full => Ok(Makes::new(alloc)),
        Role::Shared => Makes::from_slice(alloc, &[pos, crd]),
        Role::Single => Makes::from_slice(alloc, &[pos, crd]),
        Role::AtPosition => Makes::from_slice(alloc, &[crd]),
        Role::AtRank => Makes::from_slice(alloc, &[crd]),
        Role::Counted => Ok(Makes::new(alloc)),
        Role::Marked => Makes::from_slice(alloc, &[pos]),
        Role::Kept => Ok(Makes::new(alloc)),
    }
}

/// The new buffers of the levels, in order. It fails only for want of memory.
pub fn new_buffers(alloc: Global, levels: &[BuildLevel]) -> Result<Makes, AllocError>
    requires { HaveNames levels.now }
    ensures { IfOk result (λ ms. ms ≡ makes (level_trees levels.now)) }
{
    match levels {
        [] => Ok(Makes::new(alloc)),
        [level, rest @ ..] => {
            let mut made = level_buffers(alloc, level)?;
            made.append(new_buffers(alloc, rest)?)?;
            Ok(made)
        }
    }
}

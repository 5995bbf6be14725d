//! The phase.

ghost use Rattle.std.specs.Prelude.{◌≡◌, ◌+◌, ◌<◌, ◌^◌, IfOk};
ghost use Rattle.us_code.specs.Plain.{phase_tree};
ghost use Rattle.us_gen_opening.specs.Opening as opens;

use crate::counting::opening_code;
use crate::lines::{push_lines, total_term};
use crate::parts::Opening;
use sqlite_items::Items;
use std::alloc::{AllocError, Global};
use us_code::{DimLine, Phase};

/// The phase that makes the dims of parts, and the dim `count`: the number of entries of all parts. Registers from `next`
/// on are its own. It fails only for want of memory.
pub fn opening_phase(
    alloc: Global,
    parts: &[Opening],
    count: u32,
    next: u32,
) -> Result<Phase, AllocError>
    requires { next + opens.rooms parts.now < 2 ^ 32 }
    ensures { IfOk result (λ p. phase_tree p ≡ opens.opening_phase count next parts.now) }
{
    let value = total_term(alloc, parts, next)?;
    let mut dims = Items::new(alloc);
    let last = DimLine::Of { dim: count, value };
    push_lines(alloc, &mut dims, parts, next, last)?;
    let body = opening_code(alloc, parts, next)?;
    Ok(Phase {
        makes: Items::new(alloc),
        body,
        dims,
    })
}

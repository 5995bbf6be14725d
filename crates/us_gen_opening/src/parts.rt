//! What the phase needs of parts.

ghost use Rattle.std.specs.Prelude.{◌≡◌, ◌+◌, ◌<◌, ◌^◌, ◌++◌, length, IfOk};
ghost use Rattle.us_gen_opening.specs.Opening as opens;

use std::alloc::{AllocError, Global};
use us_code::Dim;
use us_gen_recover::Table;
use us_gen_walk::{Column, Loop, Places};

/// The extent of a query.
#[derive(Clone, Copy, Debug, PartialEq, Eq)]
pub struct Extent {
    /// The source that holds it in its one cell.
    pub source: u32,
    /// The dim that gets its value.
    pub dim: u32,
}

/// What the phase needs of a part.
#[derive(Debug, Drop)]
pub struct Opening {
    /// The extents of its queries.
    pub extents: Vec<Extent>,
    /// The levels in front of the slot levels.
    pub loops: Vec<Loop>,
    /// The values.
    pub values: Column,
}

/// What the phase needs of a part with these places, whose extents are in the sources from number `source` on. It fails
/// only for want of memory.
pub fn opening_of(alloc: Global, places: &Places, source: u32) -> Result<Opening, AllocError>
    requires { source + length places.now.tables.items < 2 ^ 32 }
    ensures extents { IfOk result (λ o. o.extents.items ≡ opens.extents_from source places.now.tables.items) }
    ensures loops { IfOk result (λ o. o.loops.items ≡ places.now.loops.items) }
    ensures values { IfOk result (λ o. o.values ≡ places.now.values) }
{
    let mut extents = Vec::new(alloc);
    push_extents(&mut extents, &places.tables, source)?;
    let loops = Vec::from_slice(alloc, &places.loops)?;
    Ok(Opening {
        extents,
        loops,
        values: places.values,
    })
}

/// Puts the extents of queries behind others. Their sources are one behind the other.
fn push_extents(extents: &mut Vec<Extent>, tables: &[Table], source: u32) -> Result<(), AllocError>
    requires { source + length tables.now < 2 ^ 32 }
    ensures { IfOk result (λ _. extents.new.items ≡ extents.old.items ++ opens.extents_from source tables.now) }
{
    match tables {
        [] => Ok(()),
        [first, rest @ ..] => match first.extent {
            Dim::Name(dim) => {
                extents.push(Extent { source, dim })?;
                push_extents(extents, rest, source + 1)
            }
            Dim::Number(_) => push_extents(extents, rest, source),
            Dim::Len(_) => push_extents(extents, rest, source),
        },
    }
}

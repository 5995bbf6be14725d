//! What the phase of dims needs of all parts.
ghost use Rattle.std.specs.Prelude.{◌≡◌, ◌+◌, ◌<◌, ◌≤◌, ◌^◌, All, length, IfOk};
ghost use Rattle.us_judge.specs.Views.{declaration_of};
ghost use Rattle.us_gen_listing.specs.Unpack.{IsOpenedMore, OpenedFrom};

use std::alloc::{AllocError, Global};
use us_gen_opening::{Opening, opening_of};
use us_gen_unpack::PartWalk;
use us_gen_walk::Places;
use us_judge::Format;

/// Puts what the phase needs of a part with these places behind others. The part's buffers are the sources from `source` on.
fn push_opening(
    openings: &mut Vec<Opening>,
    alloc: Global,
    places: &Places,
    source: u32,
) -> Result<(), AllocError>
    requires source { source < 2 ^ 31 }
    requires tables { length places.now.tables.items ≤ 16 }
    ensures { IfOk result (λ _. IsOpenedMore source places.now openings.old.items openings.new.items) }
{
    let opening = opening_of(alloc, places, source)?;
    openings.push(opening)?;
    Ok(())
}

/// What the phase needs of all parts of a format, whose loops these are.
pub(crate) fn openings_of(
    alloc: Global,
    format: &Format,
    walks: &[PartWalk],
) -> Result<Vec<Opening>, AllocError>
    requires parts { length walks.now ≡ length (declaration_of format.now).parts }
    requires few { length walks.now ≤ 4 }
    requires tables { All (λ x. length x.places.tables.items ≤ 16) walks.now }
    ensures { IfOk result (λ os. OpenedFrom 0 (declaration_of format.now).parts walks.now os.items) }
{
    let mut openings = Vec::new(alloc);
    let mut source = 0;
    for (k, walk) in walks.iter().enumerate() {
        push_opening(&mut openings, alloc, &walk.places, source)?;
        let count = format.part_buffers(k + 1);
        source += count as u32;
    }
    Ok(openings)
}

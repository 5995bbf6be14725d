//! The phases that list the entries of a format's buffers.
ghost use Rattle.std.specs.Prelude.{◌≡◌, ◌+◌, ◌<◌, ◌≤◌, ◌^◌, [], ◌∷◌, length, map, IfOk, OnErr, OnOk};
ghost use Rattle.us_code.specs.Plain.{phase_tree};
ghost use Rattle.us_format.specs.Program.{plain_shape};
ghost use Rattle.us_judge.specs.Views.{declaration_of};
ghost use Rattle.us_matrix.specs.Map.{IsSide};
ghost use Rattle.us_gen_opening.specs.Opening.{rooms as dim_rooms};
ghost use Rattle.us_gen_opening.specs.Unpacking.{unpacking};
ghost use Rattle.us_gen_unpack.specs.Listing.{rooms};
ghost use Rattle.us_gen_listing.specs.Unpack.{Unpacks, unpacking_room};

use crate::openings::openings_of;
use arrayvec::ArrayVec;
use sqlite_items::Items;
use std::alloc::{AllocError, Global};
use us_code::{Columns, Fresh, ListPiece, Phases};
use us_gen_opening::{Opening, opening_phase};
use us_gen_parts::part_walks;
use us_gen_unpack::{PartWalk, listing_phase};
use us_judge::Format;
use us_matrix::Shape;

/// The columns behind the dims of all parts, the numbers of which are from `first` on.
fn columns_behind(first: u32) -> Columns
    requires { first < 2 ^ 31 }
    ensures count { result.count ≡ first + 192 }
    ensures i { result.i ≡ first + 193 }
    ensures j { result.j ≡ first + 194 }
    ensures v { result.v ≡ first + 195 }
    ensures vars { result.vars.items ≡ [] }
{
    Columns {
        count: first + 192,
        i: first + 193,
        j: first + 194,
        v: first + 195,
        vars: ArrayVec::new(),
    }
}

/// Both phases, with registers from `first + 256` and from `first + 768` on.
fn phases_of(
    alloc: Global,
    openings: &[Opening],
    walks: &[PartWalk],
    columns: &Columns,
    first: u32,
) -> Result<Phases, AllocError>
    requires first { first < 2 ^ 31 }
    requires dims { dim_rooms openings.now ≤ 512 }
    requires loops { rooms walks.now ≤ 8192 }
    ensures { IfOk result (λ ps. map phase_tree ps ≡ unpacking columns.now (first + 256) (first + 768) openings.now walks.now) }
{
    let opening = opening_phase(alloc, openings, columns.count, first + 256)?;
    let listing = listing_phase(alloc, walks, columns, first + 768)?;
    let mut phases = Items::new(alloc);
    phases.push(opening)?;
    phases.push(listing)?;
    Ok(phases)
}

/// The piece whose numbers are from `first` on.
fn piece_from(
    alloc: Global,
    format: &Format,
    shape: Shape,
    first: u32,
) -> Result<ListPiece, AllocError>
    requires first { first < 2 ^ 30 }
    requires rows { IsSide shape.rows }
    requires cols { IsSide shape.cols }
    ensures { IfOk result (λ p. Unpacks (plain_shape shape) format.now first p) }
{
    // Its contract tells that the format is valid.
    let _ = format.first_part();
    let walks = part_walks(alloc, format, shape, first)?;
    let loops = walks.as_slice();
    let openings = openings_of(alloc, format, loops)?;
    let columns = columns_behind(first);
    let dims = openings.as_slice();
    let phases = phases_of(alloc, dims, loops, &columns, first)?;
    Ok(ListPiece { phases, columns })
}

/// Two phases that list the entries of a container of this format and shape in new columns, part by part and by position.
/// The sources are the buffers of the format. The phases take the 9216 numbers from the next one on, have at most 16384
/// items, and sort nothing. It fails only for want of memory.
pub fn unpack(
    alloc: Global,
    format: &Format,
    shape: Shape,
    fresh: &mut Fresh,
) -> Result<ListPiece, AllocError>
    requires room { fresh.old < 2 ^ 30 }
    requires rows { IsSide shape.rows }
    requires cols { IsSide shape.cols }
    ensures piece { IfOk result (λ p. Unpacks (plain_shape shape) format.now fresh.old p) }
    ensures taken { OnOk result (fresh.new ≡ fresh.old + unpacking_room) }
    ensures unchanged { OnErr result (fresh.new ≡ fresh.old) }
{
    let first = fresh.next();
    let piece = piece_from(alloc, format, shape, first)?;
    fresh.take(9216);
    Ok(piece)
}

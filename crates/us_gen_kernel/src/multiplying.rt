//! The phases that multiply the matrix of a format's buffers by a dense operand.
ghost use Rattle.std.specs.Prelude.{◌≡◌, ◌+◌, ◌*◌, ◌<◌, ◌≤◌, ◌^◌, [], ◌∷◌, length, map, IfOk, OnErr, OnOk};
ghost use Rattle.us_code.specs.Plain.{phase_tree};
ghost use Rattle.us_format.specs.Program.{plain_shape};
ghost use Rattle.us_judge.specs.Views.{declaration_of};
ghost use Rattle.us_matrix.specs.Map.{IsSide};
ghost use Rattle.us_gen_opening.specs.Opening.{rooms as dim_rooms};
ghost use Rattle.us_gen_product.specs.Product.{cells, rooms};
ghost use Rattle.us_gen_kernel.specs.Kernel.{Multiplies, multiplying, multiplying_room, product_from};

use crate::openings::openings_of;
use sqlite_items::Items;
use std::alloc::{AllocError, Global};
use us_code::{BuildPiece, Fresh, Phases};
use us_gen_opening::{Opening, opening_phase};
use us_gen_parts::part_walks;
use us_gen_product::{Product, product_phase};
use us_gen_unpack::PartWalk;
use us_judge::Format;
use us_matrix::Shape;

/// The product of the matrix of a format's buffers and the operand, which is the source behind them. The result is behind
/// the dims of all parts, the numbers of which are from `first` on.
fn product_behind(format: &Format, shape: Shape, columns: u32, first: u32) -> Product
    requires first { first < 2 ^ 31 }
    ensures { result ≡ product_from (plain_shape shape) format.now columns first }
{
    // Its contract tells that the format is valid.
    let _ = format.first_part();
    Product {
        operand: format.buffers() as u32,
        result: first + 193,
        rows: u64::from(shape.rows),
        inner: u64::from(shape.cols),
        columns: u64::from(columns),
    }
}

/// Both phases, with registers from `first + 256` and from `first + 768` on.
fn phases_of(
    alloc: Global,
    openings: &[Opening],
    walks: &[PartWalk],
    product: &Product,
    first: u32,
) -> Result<Phases, AllocError>
    requires first { first < 2 ^ 31 }
    requires dims { dim_rooms openings.now ≤ 512 }
    requires loops { rooms walks.now ≤ 8256 }
    requires cells { cells product.now < 2 ^ 64 }
    ensures { IfOk result (λ ps. map phase_tree ps ≡ multiplying product.now (first + 192) (first + 256) (first + 768) openings.now walks.now) }
{
    let opening = opening_phase(alloc, openings, first + 192, first + 256)?;
    let loops = product_phase(alloc, walks, product, first + 768)?;
    let mut phases = Items::new(alloc);
    phases.push(opening)?;
    phases.push(loops)?;
    Ok(phases)
}

/// The piece whose numbers are from `first` on.
fn piece_from(
    alloc: Global,
    format: &Format,
    shape: Shape,
    columns: u32,
    first: u32,
) -> Result<BuildPiece, AllocError>
    requires first { first < 2 ^ 30 }
    requires rows { IsSide shape.rows }
    requires cols { IsSide shape.cols }
    ensures { IfOk result (λ p. Multiplies (plain_shape shape) format.now columns first p) }
{
    // Its contract tells that the format is valid.
    let _ = format.first_part();
    let walks = part_walks(alloc, format, shape, first)?;
    let loops = walks.as_slice();
    let openings = openings_of(alloc, format, loops)?;
    let product = product_behind(format, shape, columns, first);
    let dims = openings.as_slice();
    let phases = phases_of(alloc, dims, loops, &product, first)?;
    let mut buffers = Items::new(alloc);
    buffers.push(product.result)?;
    Ok(BuildPiece { phases, buffers })
}

/// Two phases that multiply the matrix of a container of this format and shape by an operand of so many columns. The
/// sources are the buffers of the format and, behind them, the operand, column after column; the one named buffer is the
/// product modulo 2^64, column after column. The phases take the 9216 numbers from the next one on. It fails only for want
/// of memory.
pub fn accumulate(
    alloc: Global,
    format: &Format,
    shape: Shape,
    columns: u32,
    fresh: &mut Fresh,
) -> Result<BuildPiece, AllocError>
    requires room { fresh.old < 2 ^ 30 }
    requires rows { IsSide shape.rows }
    requires cols { IsSide shape.cols }
    ensures piece { IfOk result (λ p. Multiplies (plain_shape shape) format.now columns fresh.old p) }
    ensures taken { OnOk result (fresh.new ≡ fresh.old + multiplying_room) }
    ensures unchanged { OnErr result (fresh.new ≡ fresh.old) }
{
    let first = fresh.next();
    let piece = piece_from(alloc, format, shape, columns, first)?;
    fresh.take(9216);
    Ok(piece)
}

//! The rows and the columns of blocks.
ghost use Rattle.std.specs.Prelude.{◌≡◌, ◌++◌, ◌<◌, OnOk, Some};
ghost use Rattle.std.specs.List.{slice_get};
ghost use Rattle.us_advise.specs.Blocks.{IsBlockSide};
ghost use Rattle.us_smallest.specs.Blocking.{all_sides, sides_text};

use itoa::Buffer;
use std::alloc::AllocError;

/// The rows and the columns of a block, 1 to 8 of each.
#[derive(Clone, Copy)]
pub struct Sides {
    pub rows: u32,
    pub cols: u32,
}

/// The sides at a place of all, which go by rows and then by columns.
pub fn sides_at(place: usize) -> Sides
    requires { place < 64 }
    ensures is { slice_get all_sides place ≡ Some result }
    ensures rows { IsBlockSide result.rows }
    ensures cols { IsBlockSide result.cols }
{
    let place = place as u32;
    Sides {
        rows: place / 8 + 1,
        cols: place % 8 + 1,
    }
}

/// The rows, a blank and the columns.
pub fn push_sides(out: &mut Vec<u8>, sides: Sides) -> Result<(), AllocError>
    ensures { OnOk result (out.new.items ≡ out.old.items ++ sides_text sides) }
{
    out.extend_from_slice(Buffer::new().format(sides.rows).as_bytes())?;
    out.extend_from_slice(b" ")?;
    out.extend_from_slice(Buffer::new().format(sides.cols).as_bytes())
}

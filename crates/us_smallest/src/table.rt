//! Lines of tables.
ghost use Rattle.std.specs.Prelude.{◌≡◌, ◌++◌, OnOk};
ghost use Rattle.us_smallest.specs.Tables.{ending, size_text};

use itoa::Buffer;
use std::alloc::AllocError;
use us_build::LIMIT;

/// What stands behind the label of a line: a blank, the size, or `over` where it is above the limit, and the end of the line.
pub fn push_ending(out: &mut Vec<u8>, size: u64) -> Result<(), AllocError>
    ensures { OnOk result (out.new.items ≡ out.old.items ++ ending size) }
{
    out.extend_from_slice(b" ")?;
    push_size(out, size)?;
    out.extend_from_slice(b"\n")
}

fn push_size(out: &mut Vec<u8>, size: u64) -> Result<(), AllocError>
    ensures { OnOk result (out.new.items ≡ out.old.items ++ size_text size) }
{
    if size <= LIMIT {
        out.extend_from_slice(Buffer::new().format(size).as_bytes())
    } else {
        out.extend_from_slice(b"over")
    }
}

// The canonical text of a matrix.
ghost use Rattle.std.specs.Prelude.{◌≡◌, ◌++◌, IfOk, OnOk};
ghost use Rattle.std.specs.Fmt.{decimal};
ghost use Rattle.us_mm.specs.Text.{text, line_of, entry_line};

use itoa::Buffer;
use std::alloc::{AllocError, Global};
use us_matrix::{Matrix, Triple};

/// The canonical text: the header, the size line, and a line for each entry in row-major order. There are no comments,
/// one space stands between words, and each line ends by LF.
pub fn write_coordinate(alloc: Global, matrix: &Matrix) -> Result<Vec<u8>, AllocError>
    ensures { IfOk result (λ v. v.items ≡ text matrix.now) }
{
    let mut out = Vec::from_slice(alloc, b"%%MatrixMarket matrix coordinate integer general\n")?;
    let shape = matrix.shape();
    let entries = matrix.entries();
    push_sizes(&mut out, shape.rows, shape.cols, entries.len())?;
    for t in entries {
        push_entry(&mut out, t)?;
    }
    Ok(out)
}

fn push_sizes(out: &mut Vec<u8>, rows: u32, cols: u32, count: usize) -> Result<(), AllocError>
    ensures { OnOk result (out.new.items ≡ out.old.items ++ line_of (decimal rows) (decimal cols) (decimal count)) }
{
    let mut buffer = Buffer::new();
    out.extend_from_slice(buffer.format(rows).as_bytes())?;
    out.push(b' ')?;
    out.extend_from_slice(buffer.format(cols).as_bytes())?;
    out.push(b' ')?;
    out.extend_from_slice(buffer.format(count).as_bytes())?;
    out.push(b'\n')?;
    Ok(())
}

fn push_entry(out: &mut Vec<u8>, t: &Triple) -> Result<(), AllocError>
    ensures { OnOk result (out.new.items ≡ out.old.items ++ entry_line t.now) }
{
    let mut buffer = Buffer::new();
    out.extend_from_slice(buffer.format(u64::from(t.i) + 1).as_bytes())?;
    out.push(b' ')?;
    out.extend_from_slice(buffer.format(u64::from(t.j) + 1).as_bytes())?;
    out.push(b' ')?;
    out.extend_from_slice(buffer.format(t.v).as_bytes())?;
    out.push(b'\n')?;
    Ok(())
}

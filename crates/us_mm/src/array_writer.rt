// The canonical text of a dense matrix.
ghost use Rattle.std.specs.Prelude.{◌≡◌, ◌++◌, IfOk, OnOk};
ghost use Rattle.us_mm.specs.Text.{array_text, sides_line, value_line};

use itoa::Buffer;
use std::alloc::{AllocError, Global};
use us_matrix::Dense;

/// The canonical text: the header, the line of rows and columns, and a line for each value, column after column. One
/// space stands between words, and each line ends by LF.
pub fn write_array(alloc: Global, dense: &Dense) -> Result<Vec<u8>, AllocError>
    ensures { IfOk result (λ v. v.items ≡ array_text dense.now) }
{
    let mut out = Vec::from_slice(alloc, b"%%MatrixMarket matrix array integer general\n")?;
    let cells = dense.cells();
    push_sides(&mut out, dense.rows(), dense.cols())?;
    for v in cells {
        push_value(&mut out, v)?;
    }
    Ok(out)
}

fn push_sides(out: &mut Vec<u8>, rows: u32, cols: u32) -> Result<(), AllocError>
    ensures { OnOk result (out.new.items ≡ out.old.items ++ sides_line rows cols) }
{
    let mut buffer = Buffer::new();
    out.extend_from_slice(buffer.format(rows).as_bytes())?;
    out.push(b' ')?;
    out.extend_from_slice(buffer.format(cols).as_bytes())?;
    out.push(b'\n')?;
    Ok(())
}

fn push_value(out: &mut Vec<u8>, v: &i64) -> Result<(), AllocError>
    ensures { OnOk result (out.new.items ≡ out.old.items ++ value_line v.now) }
{
    let mut buffer = Buffer::new();
    out.extend_from_slice(buffer.format(*v).as_bytes())?;
    out.push(b'\n')?;
    Ok(())
}

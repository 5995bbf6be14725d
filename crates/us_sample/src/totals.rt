//! The line that is printed of a matrix.
ghost use Rattle.std.specs.Prelude.{◌≡◌, ◌++◌, IfOk, OnOk};
ghost use Rattle.std.specs.Fmt.{decimal, signed_decimal};
ghost use Rattle.us_sample.specs.Totals.{sum_of, line_of};

use itoa::Buffer;
use std::alloc::{AllocError, Global};
use us_matrix::Matrix;

/// The sum of the values modulo 2^64, shown signed.
pub fn sum(matrix: &Matrix) -> i64
    ensures { result ≡ sum_of matrix.now }
{
    let mut sum = 0u64;
    for entry in matrix.entries() {
        let bits = entry.v.cast_unsigned();
        sum = sum.wrapping_add(bits);
    }
    sum.cast_signed()
}

/// The bytes of the line `ROWS COLS ENTRIES SUM`, with its LF: the rows, the columns, the number of entries, and the sum
/// of their values modulo 2^64, shown signed.
///
/// # Errors
///
/// Want of memory alone.
pub fn last_line(alloc: Global, matrix: &Matrix) -> Result<Vec<u8>, AllocError>
    ensures { IfOk result (λ v. v.items ≡ line_of matrix.now) }
{
    let shape = matrix.shape();
    let rows = u64::from(shape.rows);
    let cols = u64::from(shape.cols);
    let entries = matrix.entries().len() as u64;
    let mut out = Vec::new(alloc);
    push_number(&mut out, rows)?;
    out.push(b' ')?;
    push_number(&mut out, cols)?;
    out.push(b' ')?;
    push_number(&mut out, entries)?;
    out.push(b' ')?;
    push_signed(&mut out, sum(matrix))?;
    out.push(b'\n')?;
    Ok(out)
}

fn push_number(out: &mut Vec<u8>, number: u64) -> Result<(), AllocError>
    ensures { OnOk result (out.new.items ≡ out.old.items ++ decimal number) }
{
    let mut buffer = Buffer::new();
    out.extend_from_slice(buffer.format(number).as_bytes())
}

fn push_signed(out: &mut Vec<u8>, number: i64) -> Result<(), AllocError>
    ensures { OnOk result (out.new.items ≡ out.old.items ++ signed_decimal number) }
{
    let mut buffer = Buffer::new();
    out.extend_from_slice(buffer.format(number).as_bytes())
}

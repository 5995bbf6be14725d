//! The fields of a container, at the front of the bytes that are left of a file of `len` bytes.
ghost use Rattle.std.specs.Prelude.{◌≡◌, ◌≤◌, ◌+◌, ◌-◌, ◌*◌, IfOk, length, [], replicate, pos};
ghost use Rattle.us_container.specs.Contained.{field, number, cells, cells_of, buffer, buffers};
ghost use Rattle.us_container.specs.Answers.{Answers};

use crate::fault::ContainerFault;
use byteorder::{ByteOrder, LittleEndian};
use std::alloc::{AllocError, Global};
use us_matrix::Buffers;

/// The place at which the bytes that are left begin.
pub fn place(len: usize, rest: &[u8]) -> u64
    ensures { result ≡ len - length rest.now }
{
    len.saturating_sub(rest.len()) as u64
}

/// A field of `n` bytes, and what stands behind it.
pub fn field(len: usize, n: u64, rest: &[u8]) -> Result<(&[u8], &[u8]), ContainerFault>
    ensures is { Answers (λ x. (x.0.now, x.1.now)) (field len n rest.now) result }
    ensures len { IfOk result (λ x. length x.0.now ≡ n) }
    ensures shorter { IfOk result (λ x. length x.0.now ≤ length rest.now) }
{
    if n > rest.len() as u64 {
        return Err(ContainerFault::Truncated {
            at: place(len, rest),
        });
    }
    Ok(rest.split_at(n as usize))
}

/// A number of eight bytes, and what stands behind it.
pub fn number(len: usize, rest: &[u8]) -> Result<(u64, &[u8]), ContainerFault>
    ensures { Answers (λ x. (x.0, x.1.now)) (number len rest.now) result }
{
    let (bytes, behind) = field(len, 8, rest)?;
    Ok((LittleEndian::read_u64(bytes), behind))
}

/// So many zeros.
fn zeros(alloc: Global, n: usize) -> Result<Vec<i64>, AllocError>
    ensures { IfOk result (λ v. v.items ≡ replicate n (pos 0)) }
{
    Ok(vec![in alloc; 0i64; n]?)
}

/// The `n` cells of a field.
fn cells_of(alloc: Global, n: usize, bytes: &[u8]) -> Result<Vec<i64>, AllocError>
    requires { length bytes.now ≡ 8 * n }
    ensures { IfOk result (λ v. v.items ≡ cells_of n bytes.now) }
{
    let mut cells = zeros(alloc, n)?;
    LittleEndian::read_i64_into(bytes, &mut cells);
    Ok(cells)
}

/// `n` cells, and what stands behind them. Where the file ends before them, the first cell that isn't whole is named.
pub fn cells(
    alloc: Global,
    len: usize,
    n: u64,
    rest: &[u8],
) -> Result<(Vec<i64>, &[u8]), ContainerFault>
    ensures { Answers (λ x. (x.0.items, x.1.now)) (cells len n rest.now) result }
{
    let whole = rest.len() / 8;
    if n > whole as u64 {
        return Err(ContainerFault::Truncated {
            at: place(len, rest) + 8 * whole as u64,
        });
    }
    let (bytes, behind) = rest.split_at(8 * n as usize);
    let cells = cells_of(alloc, n as usize, bytes)?;
    Ok((cells, behind))
}

/// A buffer, and what stands behind it.
fn buffer(alloc: Global, len: usize, rest: &[u8]) -> Result<(Vec<i64>, &[u8]), ContainerFault>
    ensures { Answers (λ x. (x.0.items, x.1.now)) (buffer len rest.now) result }
{
    let (n, behind) = number(len, rest)?;
    cells(alloc, len, n, behind)
}

/// So many buffers, and what stands behind them.
pub fn buffers(
    alloc: Global,
    len: usize,
    count: usize,
    rest: &[u8],
) -> Result<(Buffers, &[u8]), ContainerFault>
    ensures { Answers (λ x. (x.0, x.1.now)) (buffers len count [] rest.now) result }
{
    let mut found = Buffers::new(alloc);
    let mut left = rest;
    for _ in 0..count {
        let (cells, behind) = buffer(alloc, len, left)?;
        found.push(cells)?;
        left = behind;
    }
    Ok((found, left))
}

//! Words and cells as bytes, the low byte first.
ghost use Rattle.std.specs.Prelude.{◌≡◌, ◌+◌, ◌≤◌, length};
ghost use Rattle.us_raw.specs.Layout.{word, cell, cell_bytes};
ghost use Rattle.us_raw.specs.Widths.{size_of};

use super::width::Width;

/// The word of 8 bytes at the index `at`.
pub(crate) fn load(bytes: &[u8], at: usize) -> u64
    requires { at + 8 ≤ length bytes.now }
    ensures { result ≡ word bytes.now at }
{
    let b = &bytes[at..at + 8];
    u64::from_le_bytes([b[0], b[1], b[2], b[3], b[4], b[5], b[6], b[7]])
}

/// The cells of `W` bytes.
pub(crate) struct Cells<const W: usize>;

impl<const W: usize> Cells<W> {
    /// The cell at the index `at`.
    pub(crate) fn read(bytes: &[u8], at: usize) -> i64
        requires { (W ≤ 8) × (at + W ≤ length bytes.now) }
        ensures { result ≡ cell W bytes.now at }
    {
        let mut word = [0; 8];
        word[..W].copy_from_slice(&bytes[at..at + W]);
        i64::from_le_bytes(word)
    }

    /// Writes the bytes of one cell.
    pub(crate) fn write(bytes: &mut [u8], value: i64)
        requires { (W ≤ 8) × (length bytes.old ≡ W) }
        ensures { bytes.new ≡ cell_bytes W value }
    {
        let word = value.to_le_bytes();
        bytes.copy_from_slice(&word[..W]);
    }
}

/// Calls a function of the cells of a width.
macro_rules! by_width {
    ($width:expr, $call:ident($($argument:expr),*)) => {
        match $width {
            Width::W1 => Cells::<1>::$call($($argument),*),
            Width::W2 => Cells::<2>::$call($($argument),*),
            Width::W4 => Cells::<4>::$call($($argument),*),
            Width::W8 => Cells::<8>::$call($($argument),*),
        }
    };
}

/// The cell of the width at the index `at`.
pub(crate) fn read(bytes: &[u8], at: usize, width: Width) -> i64
    requires { at + size_of width ≤ length bytes.now }
    ensures { result ≡ cell (size_of width) bytes.now at }
{
    by_width!(width, read(bytes, at))
}

/// Writes the one cell of the width that the bytes are.
pub(crate) fn write(bytes: &mut [u8], width: Width, value: i64)
    requires { length bytes.old ≡ size_of width }
    ensures { bytes.new ≡ cell_bytes (size_of width) value }
{
    by_width!(width, write(bytes, value))
}

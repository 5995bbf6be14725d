// An entry line as programs write it, read in one pass.
ghost use Rattle.std.specs.Prelude.{◌≡◌, ◌<◌, ℕ, List, Some, IfSome, length, if◌then◌else◌, ◌∷◌};
ghost use Rattle.us_mm_lines.specs.Words.{words};
ghost use Rattle.us_mm_lines.specs.Usual.{IsNumberBefore, IsNumeralIn, IsEntryLine};

use crate::lines::is_blank;
use crate::words::with_digit;

/// The numbers of an entry line: row and column from 1, whether the value has a minus, and its number without the sign.
/// A number above the largest u64 is that.
#[derive(Clone, Copy)]
pub struct UsualEntry {
    pub row: u64,
    pub col: u64,
    pub minus: bool,
    pub size: u64,
}

/// The entry of a line that begins with digits, has one blank between its three words and no plus. Of another line there
/// may be none, and then its words are to be looked at one by one.
pub fn usual_entry(line: &[u8]) -> Option<UsualEntry>
    ensures { IfSome result (λ r. IsEntryLine line.now r.row r.col r.minus r.size) }
{
    let (row, behind_row) = number_in_front(line)?;
    let (col, behind_col) = number_in_front(behind_row)?;
    let (minus, digits) = without_minus(behind_col);
    let (size, rest) = number_in_front(digits)?;
    if !rest.is_empty() {
        return None;
    }
    Some(UsualEntry {
        row,
        col,
        minus,
        size,
    })
}

// The number in front of the first blank, and what is behind that blank.
fn number_in_front(line: &[u8]) -> Option<(u64, &[u8])>
    ensures { IfSome result (λ r. IsNumeralIn line.now r.0 r.1.now) }
{
    let (number, place) = number_before(line)?;
    if place == 0 {
        return None;
    }
    if place == line.len() {
        return Some((number, &[]));
    }
    Some((number, &line[place + 1..]))
}

// The number that the digits in front write, and the place of the first blank, or the line's length where there is none.
fn number_before(line: &[u8]) -> Option<(u64, usize)>
    ensures { IfSome result (λ r. IsNumberBefore line.now r.0 r.1) }
{
    let mut number = 0u64;
    for (i, b) in line.iter().enumerate() {
        if is_blank(*b) {
            return Some((number, i));
        }
        if !b.is_ascii_digit() {
            return None;
        }
        number = with_digit(number, *b - b'0');
    }
    Some((number, line.len()))
}

// Whether there is a minus in front, and what is behind it.
fn without_minus(line: &[u8]) -> (bool, &[u8])
    ensures { line.now ≡ if result.0 then 45 ∷ result.1.now else result.1.now }
{
    match line {
        [b'-', digits @ ..] => (true, digits),
        _ => (false, line),
    }
}

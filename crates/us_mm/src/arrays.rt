// The size line and the value lines of an operand file.
ghost use Rattle.std.specs.Prelude.{◌≡◌, true, ◌≢◌, ◌*◌, ◌≤◌, ◌∷◌, [], length, IfOk, MatchOption};
ghost use Rattle.us_matrix.specs.Map.{IsSide};
ghost use Rattle.us_mm.specs.Options.{side_options, value_option};
ghost use Rattle.us_mm.specs.Arrays.{sides_of, side_words, side_numbers, value_in, value_number};
ghost use Rattle.us_mm_lines.specs.Words.{words, signed_value, is_value};

use crate::MmFault;
use us_matrix::Shape;
use us_mm_lines::{next_word, signed, size_word, two_words, value_word};

/// The numbers of the size line, which has that number.
#[tactic(auto, using(crate::proofs::ArrayLemmas::sides_not_two, crate::proofs::ArrayLemmas::sides_two))]
pub fn sides_line(number: u64, line: &[u8]) -> Result<Shape, MmFault>
    ensures value { result ≡ sides_of (number, line.now) }
    ensures sides { IfOk result (λ s. IsSide s.rows × IsSide s.cols) }
    ensures size { IfOk result (λ s. s.rows * s.cols ≤ 33554432) }
{
    match two_words(line) {
        None => Err(MmFault::SizeLine { line: number }),
        Some((rows, cols)) => side_words(number, rows, cols),
    }
}

#[tactic(auto, using(crate::proofs::OptionLemmas::sides_by_options))]
fn side_words(number: u64, rows: &[u8], cols: &[u8]) -> Result<Shape, MmFault>
    ensures value { result ≡ side_words number (rows.now ∷ cols.now ∷ []) }
    ensures sides { IfOk result (λ s. IsSide s.rows × IsSide s.cols) }
    ensures size { IfOk result (λ s. s.rows * s.cols ≤ 33554432) }
{
    side_options(number, size_word(rows), size_word(cols))
}

/// The numbers of the size line, of which none is that of a word that is no number.
pub fn side_options(number: u64, rows: Option<u64>, cols: Option<u64>) -> Result<Shape, MmFault>
    ensures value { result ≡ side_options number rows cols }
    ensures sides { IfOk result (λ s. IsSide s.rows × IsSide s.cols) }
    ensures size { IfOk result (λ s. s.rows * s.cols ≤ 33554432) }
{
    match (rows, cols) {
        (Some(rows), Some(cols)) => side_numbers(number, rows, cols),
        _ => Err(MmFault::SizeLine { line: number }),
    }
}

#[tactic(auto, using(std::proofs::lemmas::Bool::Decides::nat_tests))]
fn side_numbers(number: u64, rows: u64, cols: u64) -> Result<Shape, MmFault>
    ensures value { result ≡ side_numbers number rows cols }
    ensures sides { IfOk result (λ s. IsSide s.rows × IsSide s.cols) }
    ensures size { IfOk result (λ s. s.rows * s.cols ≤ 33554432) }
{
    if rows == 0 || rows > 2147483647 || cols == 0 || cols > 2147483647 {
        return Err(MmFault::Shape { line: number });
    }
    let count = rows * cols;
    if count > 33554432 {
        return Err(MmFault::TooManyEntries { count });
    }
    Ok(Shape {
        rows: rows as u32,
        cols: cols as u32,
    })
}

// The word of a line, where it has one.
fn one_word(line: &[u8]) -> Option<&[u8]>
    ensures { MatchOption result (length (words line.now) ≢ 1) (λ w. words line.now ≡ w.now ∷ []) }
{
    let (word, rest) = next_word(line)?;
    match next_word(rest) {
        None => Some(word),
        Some(_) => None,
    }
}

/// The value of a value line, which has that number.
#[tactic(auto, using(crate::proofs::ArrayLemmas::value_not_one))]
pub fn value_line(number: u64, line: &[u8]) -> Result<i64, MmFault>
    ensures value { result ≡ value_in (number, line.now) }
    ensures range { IfOk result (λ v. is_value v ≡ true) }
{
    let Some(word) = one_word(line) else {
        return Err(MmFault::EntryLine { line: number });
    };
    value_option(number, value_word(word))
}

/// The value of a value line, none where its word is no number.
pub fn value_option(number: u64, value: Option<(bool, u64)>) -> Result<i64, MmFault>
    ensures value { result ≡ value_option number value }
    ensures range { IfOk result (λ v. is_value v ≡ true) }
{
    match value {
        None => Err(MmFault::EntryLine { line: number }),
        Some((minus, size)) => value_number(number, minus, size),
    }
}

fn value_number(number: u64, minus: bool, size: u64) -> Result<i64, MmFault>
    ensures value { result ≡ value_number number (signed_value minus size) }
    ensures range { IfOk result (λ v. is_value v ≡ true) }
{
    match signed(minus, size) {
        None => Err(MmFault::ValueRange { line: number }),
        Some(v) => Ok(v),
    }
}

// The header, the size line and a value line of an operand file, by what is known of them.
ghost use Rattle.std.specs.Prelude.{◌≡◌, ◌*◌, ◌≤◌, ℕ, List, true, IfOk};
ghost use Rattle.std.specs.Str.Lines.{strip_carriage_return};
ghost use Rattle.us_matrix.specs.Map.{IsSide};
ghost use Rattle.us_mm_lines.specs.States.{IsLineState};
ghost use Rattle.us_mm_lines.specs.Words.{is_value};
ghost use Rattle.us_mm.specs.Arrays.{array_header_of, sides_of, value_in};

use crate::MmFault;
use crate::arrays::{side_options, value_option};
use crate::header::check_array_words;
use us_matrix::Shape;
use us_mm_lines::LineState;

/// Whether the line is the header of an operand file.
#[tactic(auto, using(crate::proofs::ArrayLemmas::array_not_five))]
pub fn check_array_state(line: &LineState) -> Result<(), MmFault>
    ensures { (rest : List ℕ) → IsLineState line.now rest → result ≡ array_header_of (strip_carriage_return rest) }
{
    match line.five_words() {
        None => Err(MmFault::Header),
        Some(ws) => check_array_words(
            ws[0].front(),
            ws[1].front(),
            ws[2].front(),
            ws[3].front(),
            ws[4].front(),
        ),
    }
}

/// The numbers of the size line, which has that number.
#[tactic(auto, using(crate::proofs::ArrayLemmas::sides_not_two))]
pub fn sides_state(number: u64, line: &LineState) -> Result<Shape, MmFault>
    ensures value { (rest : List ℕ) → IsLineState line.now rest → result ≡ sides_of (number, strip_carriage_return rest) }
    ensures sides { IfOk result (λ s. IsSide s.rows × IsSide s.cols) }
    ensures size { IfOk result (λ s. s.rows * s.cols ≤ 33554432) }
{
    match line.two_words() {
        None => Err(MmFault::SizeLine { line: number }),
        Some((rows, cols)) => side_options(number, rows.size(), cols.size()),
    }
}

/// The value of a value line, which has that number.
#[tactic(auto, using(crate::proofs::ArrayLemmas::value_not_one))]
pub fn value_state(number: u64, line: &LineState) -> Result<i64, MmFault>
    ensures value { (rest : List ℕ) → IsLineState line.now rest → result ≡ value_in (number, strip_carriage_return rest) }
    ensures range { IfOk result (λ v. is_value v ≡ true) }
{
    match line.one_word() {
        None => Err(MmFault::EntryLine { line: number }),
        Some(word) => value_option(number, word.value()),
    }
}

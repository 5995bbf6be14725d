// The header, the size line and an entry line, by what is known of them.
ghost use Rattle.std.specs.Prelude.{◌≡◌, ◌<◌, ◌^◌, ℕ, List, true, IfOk};
ghost use Rattle.std.specs.Str.Lines.{strip_carriage_return};
ghost use Rattle.us_matrix.specs.Map.{IsSide, IsInShape};
ghost use Rattle.us_mm_lines.specs.States.{IsLineState};
ghost use Rattle.us_mm_lines.specs.Words.{words};
ghost use Rattle.us_mm.specs.Forms.{allows};
ghost use Rattle.us_mm.specs.Reads.{header_of, sizes_of, entry_of, integer_words, pattern_words};
ghost use Rattle.us_mm.specs.Views.{gives_sizes, sizes};

use crate::MmFault;
use crate::entries::{Size, integer_options, pattern_options, size_options};
use crate::form::{Field, Form, Symmetry};
use crate::header::read_words;
use us_matrix::{Shape, Triple};
use us_mm_lines::LineState;

/// The form that the header of a coordinate file says.
#[tactic(auto, using(crate::proofs::HeaderLemmas::header_not_five))]
pub fn header_state(line: &LineState) -> Result<Form, MmFault>
    ensures { (rest : List ℕ) → IsLineState line.now rest → result ≡ header_of (strip_carriage_return rest) }
{
    match line.five_words() {
        None => Err(MmFault::Header),
        Some(ws) => read_words(
            ws[0].front(),
            ws[1].front(),
            ws[2].front(),
            ws[3].front(),
            ws[4].front(),
        ),
    }
}

/// The numbers of the size line, which has that number.
#[tactic(auto, using(crate::proofs::EntryLemmas::sizes_not_three))]
pub fn size_state(form: Form, number: u64, line: &LineState) -> Result<Size, MmFault>
    ensures value { (rest : List ℕ) → IsLineState line.now rest → gives_sizes result (sizes_of form (number, strip_carriage_return rest)) }
    ensures sides { IfOk result (λ s. IsSide s.shape.rows × IsSide s.shape.cols) }
    ensures square { IfOk result (λ s. allows s.form.symmetry s.shape.rows s.shape.cols ≡ true) }
    ensures form { IfOk result (λ s. s.form ≡ form) }
{
    match line.three_words() {
        None => Err(MmFault::SizeLine { line: number }),
        Some((rows, cols, count)) => {
            size_options(form, number, rows.size(), cols.size(), count.size())
        }
    }
}

/// The triple of an entry line, which has that number.
#[tactic(auto, using(crate::proofs::EntryLemmas::entry_integer, crate::proofs::EntryLemmas::entry_pattern))]
pub fn entry_state(size: Size, number: u64, line: &LineState) -> Result<Triple, MmFault>
    requires rows { size.shape.rows < 2 ^ 31 }
    requires cols { size.shape.cols < 2 ^ 31 }
    ensures value { (rest : List ℕ) → IsLineState line.now rest → result ≡ entry_of (sizes size) (number, strip_carriage_return rest) }
    ensures inside { IfOk result (IsInShape size.shape.rows size.shape.cols) }
{
    match size.form.field {
        Field::Integer => integer_state(size.form.symmetry, size.shape, number, line),
        Field::Pattern => pattern_state(size.form.symmetry, size.shape, number, line),
    }
}

#[tactic(auto, using(crate::proofs::EntryLemmas::integer_not_three))]
fn integer_state(
    symmetry: Symmetry,
    shape: Shape,
    number: u64,
    line: &LineState,
) -> Result<Triple, MmFault>
    requires rows { shape.rows < 2 ^ 31 }
    requires cols { shape.cols < 2 ^ 31 }
    ensures value { (rest : List ℕ) → IsLineState line.now rest
        → result ≡ integer_words symmetry number shape.rows shape.cols (words (strip_carriage_return rest)) }
    ensures inside { IfOk result (IsInShape shape.rows shape.cols) }
{
    match line.three_words() {
        None => Err(MmFault::EntryLine { line: number }),
        Some((row, col, value)) => integer_options(
            symmetry,
            shape,
            number,
            row.size(),
            col.size(),
            value.value(),
        ),
    }
}

#[tactic(auto, using(crate::proofs::EntryLemmas::pattern_not_two))]
fn pattern_state(
    symmetry: Symmetry,
    shape: Shape,
    number: u64,
    line: &LineState,
) -> Result<Triple, MmFault>
    requires rows { shape.rows < 2 ^ 31 }
    requires cols { shape.cols < 2 ^ 31 }
    ensures value { (rest : List ℕ) → IsLineState line.now rest
        → result ≡ pattern_words symmetry number shape.rows shape.cols (words (strip_carriage_return rest)) }
    ensures inside { IfOk result (IsInShape shape.rows shape.cols) }
{
    match line.two_words() {
        None => Err(MmFault::EntryLine { line: number }),
        Some((row, col)) => pattern_options(symmetry, shape, number, row.size(), col.size()),
    }
}

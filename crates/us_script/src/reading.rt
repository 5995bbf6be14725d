// The step that a line is.
ghost use Rattle.std.specs.Prelude.{◌≡◌, ◌<◌, ◌^◌, ◌∷◌, []};
ghost use Rattle.std.specs.Str.{bytes_eq};
ghost use Rattle.us_mm_lines.specs.Words.{words, signed_value};
ghost use Rattle.us_script.specs.Reads.{step_of, set_words, set_numbers, alone};

use crate::fault::ScriptFault;
use crate::step::Step;
use us_matrix::Shape;
use us_mm_lines::{next_word, signed, size_word, three_words, value_word};

/// The step of a line that isn't skipped, which has that number.
pub fn step_of(number: u64, shape: Shape, line: &[u8]) -> Result<Step, ScriptFault>
    ensures { result ≡ step_of shape.rows shape.cols (number, line.now) }
{
    let Some((name, rest)) = next_word(line) else {
        return Err(ScriptFault::Line { line: number });
    };
    if is_word(name, b"set") {
        return set_line(number, shape, rest);
    }
    if is_word(name, b"undo") {
        return alone(number, rest, Step::Undo);
    }
    if is_word(name, b"size") {
        return alone(number, rest, Step::Size { line: number });
    }
    Err(ScriptFault::Line { line: number })
}

fn is_word(word: &[u8], name: &[u8]) -> bool
    ensures { result ≡ bytes_eq word.now name.now }
{
    word == name
}

// The step of a line with no word behind its first.
fn alone(number: u64, rest: &[u8], step: Step) -> Result<Step, ScriptFault>
    ensures { result ≡ alone number (words rest.now) step }
{
    if next_word(rest).is_some() {
        return Err(ScriptFault::Line { line: number });
    }
    Ok(step)
}

fn set_line(number: u64, shape: Shape, rest: &[u8]) -> Result<Step, ScriptFault>
    ensures { result ≡ set_words number shape.rows shape.cols (words rest.now) }
{
    match three_words(rest) {
        None => Err(ScriptFault::Line { line: number }),
        Some((row, col, value)) => set_words(number, shape, row, col, value),
    }
}

fn set_words(
    number: u64,
    shape: Shape,
    row: &[u8],
    col: &[u8],
    value: &[u8],
) -> Result<Step, ScriptFault>
    ensures { result ≡ set_words number shape.rows shape.cols (row.now ∷ col.now ∷ value.now ∷ []) }
{
    let row = size_word(row);
    let col = size_word(col);
    let value = value_word(value);
    match (row, col, value) {
        (Some(row), Some(col), Some((minus, size))) => {
            set_numbers(number, shape, row, col, minus, size)
        }
        _ => Err(ScriptFault::Line { line: number }),
    }
}

#[tactic(auto, using(std::proofs::lemmas::Bool::Decides::nat_tests))]
fn set_numbers(
    number: u64,
    shape: Shape,
    row: u64,
    col: u64,
    minus: bool,
    size: u64,
) -> Result<Step, ScriptFault>
    ensures value { result ≡ set_numbers number shape.rows shape.cols row col (signed_value minus size) }
    ensures narrow { (shape.rows < 2 ^ 32) × (shape.cols < 2 ^ 32) }
{
    let rows = u64::from(shape.rows);
    let cols = u64::from(shape.cols);
    if row == 0 || row > rows || col == 0 || col > cols {
        return Err(ScriptFault::OutOfShape { line: number });
    }
    let Some(v) = signed(minus, size) else {
        return Err(ScriptFault::ValueRange { line: number });
    };
    Ok(Step::Set {
        i: (row - 1) as u32,
        j: (col - 1) as u32,
        v,
    })
}

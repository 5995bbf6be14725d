// The lines before the entries.
ghost use Rattle.std.specs.Prelude.{◌≡◌, ◌+◌, ◌*◌, ◌≤◌, ◌++◌, ◌∷◌, [], ℕ, List, length, Bool, true, false, IfOk};
ghost use Rattle.std.specs.Str.Lines.{strip_carriage_return};
ghost use Rattle.us_matrix.specs.Map.{IsSide};
ghost use Rattle.us_mm_lines.specs.Lines.{is_skipped};
ghost use Rattle.us_mm_lines.specs.States.{IsLineState};
ghost use Rattle.us_mm.specs.declared.stage.Stage.TheVariants as at;
ghost use Rattle.us_mm.specs.declared.stage.Head.TheVariants as head;
ghost use Rattle.us_mm.specs.Forms.{allows};
ghost use Rattle.us_mm.specs.Reads.{header_of, sizes_of};
ghost use Rattle.us_mm.specs.Arrays.{array_header_of, sides_of};
ghost use Rattle.us_mm.specs.Views.{gives_sizes};
ghost use Rattle.us_mm.specs.Known.{HasForm, HasArray, Took};
ghost use Rattle.us_mm.specs.Stages.{Knows, is_array};

use crate::MmFault;
use crate::array_states::{check_array_state, sides_state};
use crate::arrays::sides_line;
use crate::entries::{Size, size_line};
use crate::entry_states::{header_state, size_state};
use crate::form::Form;
use crate::header::{check_array_header, read_header};
use crate::listing::Entries;
use crate::stage::{Head, Stage};
use crate::valuing::Values;
use std::alloc::Global;
use us_matrix::Shape;
use us_mm_lines::{LineState, is_skipped};

/// What comes behind a line, which has that number.
pub fn next(head: Head, alloc: Global, number: u64, line: &[u8]) -> Result<Stage, MmFault>
    ensures { (ls : List (List ℕ)) → Knows (at.Head head) ls → number ≡ length ls + 1
        → Took (λ s. Knows s (ls ++ line.now ∷ []) × (is_array s ≡ is_array (at.Head head))) (is_array (at.Head head)) result (ls ++ line.now ∷ []) }
{
    match head {
        Head::CoordinateHeader => behind_header(read_header(line)),
        Head::CoordinateSize(form) => {
            behind_size(alloc, form, is_skipped(line), size_line(form, number, line))
        }
        Head::ArrayHeader => behind_array(check_array_header(line)),
        Head::ArraySize => behind_sides(alloc, is_skipped(line), sides_line(number, line)),
    }
}

/// The same behind a line of which its state is known.
pub fn next_by_state(
    head: Head,
    alloc: Global,
    number: u64,
    line: &LineState,
) -> Result<Stage, MmFault>
    ensures { (rest : List ℕ) (ls : List (List ℕ)) → IsLineState line.now rest → Knows (at.Head head) ls → number ≡ length ls + 1
        → Took (λ s. Knows s (ls ++ strip_carriage_return rest ∷ []) × (is_array s ≡ is_array (at.Head head))) (is_array (at.Head head)) result
        (ls ++ strip_carriage_return rest ∷ []) }
{
    match head {
        Head::CoordinateHeader => behind_header(header_state(line)),
        Head::CoordinateSize(form) => {
            behind_size(
                alloc,
                form,
                line.is_skipped(),
                size_state(form, number, line),
            )
        }
        Head::ArrayHeader => behind_array(check_array_state(line)),
        Head::ArraySize => behind_sides(alloc, line.is_skipped(), sides_state(number, line)),
    }
}

fn behind_header(read: Result<Form, MmFault>) -> Result<Stage, MmFault>
    ensures { (line : List ℕ) → read ≡ header_of line
        → Took (λ s. Knows s (line ∷ []) × (is_array s ≡ false)) false result (line ∷ []) }
{
    match read {
        Ok(form) => Ok(Stage::Head(Head::CoordinateSize(form))),
        Err(fault) => Err(fault),
    }
}

fn behind_size(
    alloc: Global,
    form: Form,
    skipped: bool,
    read: Result<Size, MmFault>,
) -> Result<Stage, MmFault>
    requires sides { IfOk read (λ s. IsSide s.shape.rows × IsSide s.shape.cols) }
    requires square { IfOk read (λ s. allows s.form.symmetry s.shape.rows s.shape.cols ≡ true) }
    requires form { IfOk read (λ s. s.form ≡ form) }
    ensures { (number : ℕ) (ls : List (List ℕ)) (line : List ℕ) → HasForm form ls → number ≡ length ls + 1 → skipped ≡ is_skipped line
        → gives_sizes read (sizes_of form (number, line)) → Took (λ s. Knows s (ls ++ line ∷ []) × (is_array s ≡ false)) false result (ls ++ line ∷ []) }
{
    if skipped {
        return Ok(Stage::Head(Head::CoordinateSize(form)));
    }
    match read {
        Ok(size) => Ok(Stage::Entries(Entries::new(alloc, size))),
        Err(fault) => Err(fault),
    }
}

fn behind_array(read: Result<(), MmFault>) -> Result<Stage, MmFault>
    ensures { (line : List ℕ) → read ≡ array_header_of line
        → Took (λ s. Knows s (line ∷ []) × (is_array s ≡ true)) true result (line ∷ []) }
{
    match read {
        Ok(()) => Ok(Stage::Head(Head::ArraySize)),
        Err(fault) => Err(fault),
    }
}

fn behind_sides(
    alloc: Global,
    skipped: bool,
    read: Result<Shape, MmFault>,
) -> Result<Stage, MmFault>
    requires sides { IfOk read (λ s. IsSide s.rows × IsSide s.cols) }
    requires size { IfOk read (λ s. s.rows * s.cols ≤ 33554432) }
    ensures { (number : ℕ) (ls : List (List ℕ)) (line : List ℕ) → HasArray ls → number ≡ length ls + 1 → skipped ≡ is_skipped line
        → read ≡ sides_of (number, line) → Took (λ s. Knows s (ls ++ line ∷ []) × (is_array s ≡ true)) true result (ls ++ line ∷ []) }
{
    if skipped {
        return Ok(Stage::Head(Head::ArraySize));
    }
    match read {
        Ok(shape) => Ok(Stage::Values(Values::new(alloc, shape))),
        Err(fault) => Err(fault),
    }
}

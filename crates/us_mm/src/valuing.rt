// The values of an operand file, as far as they are read.
ghost use Rattle.std.specs.Prelude.{◌≡◌, ◌+◌, ◌*◌, ◌++◌, ◌∷◌, [], ◌≤◌, ℕ, List, length, true, OnOk, OnErr};
ghost use Rattle.std.specs.Str.Lines.{strip_carriage_return};
ghost use Rattle.us_matrix.specs.Map.{IsSide};
ghost use Rattle.us_mm_lines.specs.States.{IsLineState};
ghost use Rattle.us_mm.specs.Arrays.{array_lines};
ghost use Rattle.us_mm.specs.Views.{Gives};
ghost use Rattle.us_mm.specs.Known.{HasValues, Took};

use crate::MmFault;
use crate::array_states::value_state;
use crate::arrays::value_line;
use std::alloc::{AllocError, Global};
use std::marker::Model;
use us_matrix::{Dense, Shape};
use us_mm_lines::{LineState, is_skipped};

/// The shape of an operand, and the values of the value lines that were read.
#[derive(Drop)]
pub struct Values {
    shape: Shape,
    cells: Vec<i64>,
}

impl Model for Values {
    ghost use Rattle.us_mm.specs.Listed.{Valued};

    ghost Value = { Valued };

    ghost use Rattle.us_mm.specs.Sound.{IsRoomy};

    ghost view = { λ v. record { rows = v.shape.rows; cols = v.shape.cols; values = v.cells.items } };

    ghost invariant = { λ v. IsRoomy v.shape v.cells.items };
}

impl Values {
    /// No value line yet.
    pub fn new(alloc: Global, shape: Shape) -> Values
        requires sides { IsSide shape.rows × IsSide shape.cols }
        requires size { shape.rows * shape.cols ≤ 33554432 }
        ensures { result ≡ record { rows = shape.rows; cols = shape.cols; values = [] } }
    {
        Values {
            shape,
            cells: Vec::new(alloc),
        }
    }

    /// One line more, which has that number.
    pub fn take(&mut self, number: u64, line: &[u8]) -> Result<(), MmFault>
        ensures { (ls : List (List ℕ)) → HasValues self.old ls → number ≡ length ls + 1
            → Took (λ _. HasValues self.new (ls ++ line.now ∷ [])) true result (ls ++ line.now ∷ []) }
    {
        if is_skipped(line) {
            return Ok(());
        }
        if self.cells.len() as u64 >= places(self.shape) {
            return Err(MmFault::Extra { line: number });
        }
        let value = value_line(number, line)?;
        add(&mut self.cells, value)?;
        Ok(())
    }

    /// The same of a line of which its state is known.
    pub fn take_state(&mut self, number: u64, line: &LineState) -> Result<(), MmFault>
        ensures { (rest : List ℕ) (ls : List (List ℕ)) → IsLineState line.now rest → HasValues self.old ls → number ≡ length ls + 1
            → Took (λ _. HasValues self.new (ls ++ strip_carriage_return rest ∷ [])) true result (ls ++ strip_carriage_return rest ∷ []) }
    {
        if line.is_skipped() {
            return Ok(());
        }
        if self.cells.len() as u64 >= places(self.shape) {
            return Err(MmFault::Extra { line: number });
        }
        let value = value_state(number, line)?;
        add(&mut self.cells, value)?;
        Ok(())
    }

    /// The dense matrix, where no line follows.
    pub fn finish(self) -> Result<Dense, MmFault>
        ensures { (ls : List (List ℕ)) → HasValues self ls → Gives result (array_lines ls) }
    {
        let wanted = places(self.shape);
        let found = self.cells.len() as u64;
        if found < wanted {
            return Err(MmFault::Missing { found, wanted });
        }
        Ok(Dense::new(self.shape.rows, self.shape.cols, self.cells))
    }
}

// One value more, at the end.
fn add(values: &mut Vec<i64>, value: i64) -> Result<(), AllocError>
    ensures ok { OnOk result (values.new.items ≡ values.old.items ++ value ∷ []) }
    ensures err { OnErr result (values.new.items ≡ values.old.items) }
{
    values.push(value)?;
    Ok(())
}

// How many cells a dense matrix of the shape has.
fn places(shape: Shape) -> u64
    ensures { result ≡ shape.rows * shape.cols }
{
    u64::from(shape.rows) * u64::from(shape.cols)
}

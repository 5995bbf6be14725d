// What the next line of a file is.
ghost use Rattle.std.specs.Prelude.{◌≡◌, ◌+◌, ◌++◌, ◌∷◌, [], ℕ, List, length};
ghost use Rattle.std.specs.Str.Lines.{strip_carriage_return};
ghost use Rattle.us_mm_lines.specs.States.{IsLineState};
ghost use Rattle.us_mm.specs.Known.{Took};
ghost use Rattle.us_mm.specs.Stages.{Knows, is_array};

use crate::MmFault;
use crate::form::Form;
use crate::head::{next, next_by_state};
use crate::listing::Entries;
use crate::valuing::Values;
use std::alloc::Global;
use us_mm_lines::LineState;

/// What comes before the entries.
#[derive(Clone, Copy)]
pub enum Head {
    CoordinateHeader,
    CoordinateSize(Form),
    ArrayHeader,
    ArraySize,
}

/// What the next line is that isn't skipped.
#[derive(Drop)]
pub enum Stage {
    Head(Head),
    Entries(Entries),
    Values(Values),
}

impl Stage {
    /// One line more, which has that number.
    pub fn take(&mut self, alloc: Global, number: u64, line: &[u8]) -> Result<(), MmFault>
        ensures { (ls : List (List ℕ)) → Knows self.old ls → number ≡ length ls + 1
            → Took (λ _. Knows self.new (ls ++ line.now ∷ []) × (is_array self.new ≡ is_array self.old)) (is_array self.old) result (ls ++ line.now ∷ []) }
    {
        match self {
            Stage::Entries(entries) => entries.take(number, line),
            Stage::Values(values) => values.take(number, line),
            Stage::Head(head) => {
                let stage = next(*head, alloc, number, line)?;
                *self = stage;
                Ok(())
            }
        }
    }

    /// The same of a line of which its state is known.
    pub fn take_state(
        &mut self,
        alloc: Global,
        number: u64,
        line: &LineState,
    ) -> Result<(), MmFault>
        ensures { (rest : List ℕ) (ls : List (List ℕ)) → IsLineState line.now rest → Knows self.old ls → number ≡ length ls + 1
            → Took (λ _. Knows self.new (ls ++ strip_carriage_return rest ∷ []) × (is_array self.new ≡ is_array self.old)) (is_array self.old) result
            (ls ++ strip_carriage_return rest ∷ []) }
    {
        match self {
            Stage::Entries(entries) => entries.take_state(number, line),
            Stage::Values(values) => values.take_state(number, line),
            Stage::Head(head) => {
                let stage = next_by_state(*head, alloc, number, line)?;
                *self = stage;
                Ok(())
            }
        }
    }
}

// The entries of a file, as far as they are read.
ghost use Rattle.std.specs.Prelude.{◌≡◌, ◌+◌, ◌++◌, ◌∷◌, [], ◌<◌, ◌≤◌, ℕ, List, length, false, true, OnOk, IfOk, All};
ghost use Rattle.std.specs.Str.Lines.{strip_carriage_return};
ghost use Rattle.us_matrix.specs.Map.{IsSide, IsInShape};
ghost use Rattle.us_mm_lines.specs.States.{IsLineState};
ghost use Rattle.us_mm.specs.Forms.{allows, stands_for};
ghost use Rattle.us_mm.specs.Reads.{read_lines};
ghost use Rattle.us_mm.specs.Views.{sizes, GivesReading};
ghost use Rattle.us_mm.specs.Known.{HasEntries, Took};

use crate::MmFault;
use crate::entries::{Size, entry_line};
use crate::entry_states::entry_state;
use std::alloc::{AllocError, Global};
use std::marker::Model;
use us_matrix::{Shape, Triple};
use us_mm_lines::{LineState, is_skipped};

/// The size line, how many entry lines were read, and the triples that these stand for.
#[derive(Drop)]
pub struct Entries {
    size: Size,
    found: u64,
    triples: Vec<Triple>,
}

impl Model for Entries {
    ghost use Rattle.us_mm.specs.Listed.{Listed};

    ghost Value = { Listed };

    ghost use Rattle.us_mm.specs.Views.{sizes};
    ghost use Rattle.us_mm.specs.Sound.{IsSound};

    ghost view = { λ e. record { sizes = sizes e.size; found = e.found; triples = e.triples.items } };

    ghost invariant = { λ e. IsSound e.size e.found e.triples.items };
}

impl Entries {
    /// No entry line yet.
    pub fn new(alloc: Global, size: Size) -> Entries
        requires sides { IsSide size.shape.rows × IsSide size.shape.cols }
        requires square { allows size.form.symmetry size.shape.rows size.shape.cols ≡ true }
        ensures { result ≡ record { sizes = sizes size; found = 0; triples = [] } }
    {
        Entries {
            size,
            found: 0,
            triples: Vec::new(alloc),
        }
    }

    /// One line more, which has that number.
    pub fn take(&mut self, number: u64, line: &[u8]) -> Result<(), MmFault>
        ensures { (ls : List (List ℕ)) → HasEntries self.old ls → number ≡ length ls + 1
            → Took (λ _. HasEntries self.new (ls ++ line.now ∷ [])) false result (ls ++ line.now ∷ []) }
    {
        if is_skipped(line) {
            return Ok(());
        }
        if self.found >= self.size.count {
            return Err(MmFault::Extra { line: number });
        }
        let triple = entry_line(self.size, number, line)?;
        push_entry(&mut self.triples, self.size, triple)?;
        self.found += 1;
        Ok(())
    }

    /// The same of a line of which its state is known.
    pub fn take_state(&mut self, number: u64, line: &LineState) -> Result<(), MmFault>
        ensures { (rest : List ℕ) (ls : List (List ℕ)) → IsLineState line.now rest → HasEntries self.old ls → number ≡ length ls + 1
            → Took (λ _. HasEntries self.new (ls ++ strip_carriage_return rest ∷ [])) false result (ls ++ strip_carriage_return rest ∷ []) }
    {
        if line.is_skipped() {
            return Ok(());
        }
        if self.found >= self.size.count {
            return Err(MmFault::Extra { line: number });
        }
        let triple = entry_state(self.size, number, line)?;
        push_entry(&mut self.triples, self.size, triple)?;
        self.found += 1;
        Ok(())
    }

    /// The shape and the triples, where no line follows.
    pub fn finish(self) -> Result<(Shape, Vec<Triple>), MmFault>
        ensures value { (ls : List (List ℕ)) → HasEntries self ls → GivesReading result (read_lines ls) }
        ensures shape { IfOk result (λ r. IsSide r.0.rows × IsSide r.0.cols) }
        ensures inside { IfOk result (λ r. All (IsInShape r.0.rows r.0.cols) r.1.items) }
    {
        if self.found < self.size.count {
            return Err(MmFault::Missing {
                found: self.found,
                wanted: self.size.count,
            });
        }
        Ok((self.size.shape, self.triples))
    }
}

// Adds what an entry stands for, at the end.
fn push_entry(triples: &mut Vec<Triple>, size: Size, triple: Triple) -> Result<(), AllocError>
    requires square { allows size.form.symmetry size.shape.rows size.shape.cols ≡ true }
    requires old { All (IsInShape size.shape.rows size.shape.cols) triples.old.items }
    requires inside { IsInShape size.shape.rows size.shape.cols triple }
    ensures value { OnOk result (triples.new.items ≡ triples.old.items ++ stands_for size.form.symmetry triple) }
    ensures inside { All (IsInShape size.shape.rows size.shape.cols) triples.new.items }
{
    triples.push(triple)?;
    if let Some(mirrored) = size.form.symmetry.mirrored(triple) {
        triples.push(mirrored)?;
    }
    Ok(())
}

// The reader of a file that comes in pieces.
ghost use Rattle.std.specs.Prelude.{◌≡◌, ◌+◌, ◌<◌, ◌^◌, ◌++◌, ◌∷◌, [], ℕ, List, Bool, true, false, length, None, Err, IfOk, All};
ghost use Rattle.std.specs.Str.Lines.{strip_carriage_return};
ghost use Rattle.us_matrix.specs.Map.{IsSide, IsInShape};
ghost use Rattle.us_mm_lines.specs.Lines.{lines};
ghost use Rattle.us_mm_lines.specs.States.{IsLineState};
ghost use Rattle.us_mm.specs.declared.fault.MmFault.TheVariants.{Memory};
ghost use Rattle.us_mm.specs.Reads.{read_lines};
ghost use Rattle.us_mm.specs.Arrays.{array_lines};
ghost use Rattle.us_mm.specs.Views.{Gives, GivesReading};
ghost use Rattle.us_mm.specs.declared.stage.Stage.TheVariants as at;
ghost use Rattle.us_mm.specs.Known.{Took};
ghost use Rattle.us_mm.specs.Stages.{Knows, is_array};
ghost use Rattle.us_mm.specs.Pieces.{HasNoFeed, Holds, IsLost, Goes, Ended, Ends, IsCounted};

use crate::MmFault;
use crate::stage::{Head, Stage};
use memchr::memchr;
use std::alloc::Global;
use us_matrix::{Dense, Shape, Triple};
use us_mm_lines::{LineState, without_return};

/// What is known of the lines that are ended, how many these are, the first fault in them, and the state of the line
/// that isn't ended.
#[derive(Drop)]
pub struct Pieces {
    alloc: Global,
    stage: Stage,
    lines: u64,
    fault: Option<MmFault>,
    line: LineState,
}

impl Pieces {
    /// No byte yet.
    pub fn new(alloc: Global, head: Head) -> Pieces
        ensures { Knows (at.Head head) [] → Holds (is_array (at.Head head)) result [] }
    {
        Pieces {
            alloc,
            stage: Stage::Head(head),
            lines: 0,
            fault: None,
            line: LineState::new(),
        }
    }

    /// Some more bytes.
    pub fn feed(&mut self, piece: &[u8])
        ensures { Goes self.old self.new piece.now }
    {
        let mut left = piece;
        while self.fault.is_none() {
            match memchr(b'\n', left) {
                None => {
                    self.line.push_all(left);
                    return;
                }
                Some(end) => {
                    self.end_line(&left[..end]);
                    left = &left[end + 1..];
                }
            }
        }
    }

    /// The end of the file: the line that isn't ended is one, unless it is empty. Answers the first fault in a line.
    pub fn end(&mut self) -> Result<(), MmFault>
        ensures value { (array : Bool) (bytes : List ℕ) → length bytes < 2 ^ 64 → Holds array self.old bytes → Ended array self.new result (lines bytes) }
        ensures lost { IsLost self.old → result ≡ Err Memory }
    {
        if let Some(fault) = self.fault {
            return Err(fault);
        }
        if self.line.is_empty() {
            return Ok(());
        }
        self.lines = self.lines.saturating_add(1);
        self.stage.take_state(self.alloc, self.lines, &self.line)
    }

    /// The shape and the triples of a coordinate file, where it ends behind the lines that are known.
    pub fn triples(self) -> Result<(Shape, Vec<Triple>), MmFault>
        ensures value { (ls : List (List ℕ)) → Knows self.stage ls → is_array self.stage ≡ false → self.lines ≡ length ls → IsCounted ls
            → GivesReading result (read_lines ls) }
        ensures shape { IfOk result (λ r. IsSide r.0.rows × IsSide r.0.cols) }
        ensures inside { IfOk result (λ r. All (IsInShape r.0.rows r.0.cols) r.1.items) }
    {
        match self.stage {
            Stage::Entries(entries) => entries.finish(),
            Stage::Head(head) => Err(missing(head, self.lines)),
            Stage::Values(_) => Err(MmFault::Header),
        }
    }

    /// The dense matrix of an operand file, where it ends behind the lines that are known.
    pub fn dense(self) -> Result<Dense, MmFault>
        ensures { (ls : List (List ℕ)) → Knows self.stage ls → is_array self.stage ≡ true → self.lines ≡ length ls → IsCounted ls
            → Gives result (array_lines ls) }
    {
        match self.stage {
            Stage::Values(values) => values.finish(),
            Stage::Head(head) => Err(missing(head, self.lines)),
            Stage::Entries(_) => Err(MmFault::Header),
        }
    }

    /// The state of the line that isn't ended.
    pub fn state(&self) -> LineState
        ensures { result ≡ self.now.line }
    {
        self.line
    }

    // A line feed behind these bytes.
    fn end_line(&mut self, bytes: &[u8])
        requires unfaulted { self.old.fault ≡ None }
        requires feeds { HasNoFeed bytes.now }
        ensures { Goes self.old self.new (bytes.now ++ 10 ∷ []) }
    {
        let number = self.lines.saturating_add(1);
        let Err(fault) = self.take(number, bytes) else {
            self.lines = number;
            self.line = LineState::new();
            return;
        };
        self.fault = Some(fault);
    }

    // The line that these bytes end, which has that number.
    fn take(&mut self, number: u64, bytes: &[u8]) -> Result<(), MmFault>
        ensures took { (rest : List ℕ) (ls : List (List ℕ)) → IsLineState self.old.line rest → Knows self.old.stage ls → number ≡ length ls + 1
            → Took (λ _. Knows self.new.stage (ls ++ strip_carriage_return (rest ++ bytes.now) ∷ []) × (is_array self.new.stage ≡ is_array self.old.stage))
            (is_array self.old.stage) result (ls ++ strip_carriage_return (rest ++ bytes.now) ∷ []) }
        ensures fault { self.new.fault ≡ self.old.fault }
    {
        if self.line.is_empty() {
            return self.stage.take(self.alloc, number, without_return(bytes));
        }
        self.line.push_all(bytes);
        self.stage.take_state(self.alloc, number, &self.line)
    }
}

// The fault of a file that ends behind so many lines, before its size line.
fn missing(head: Head, lines: u64) -> MmFault
    ensures { (ls : List (List ℕ)) → Knows (at.Head head) ls → lines ≡ length ls → IsCounted ls → Ends (is_array (at.Head head)) result ls }
{
    match head {
        Head::CoordinateHeader => MmFault::Header,
        Head::CoordinateSize(_) => MmFault::SizeLine {
            line: lines.saturating_add(1),
        },
        Head::ArrayHeader => MmFault::Header,
        Head::ArraySize => MmFault::SizeLine {
            line: lines.saturating_add(1),
        },
    }
}

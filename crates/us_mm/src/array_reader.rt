// The reader of operand files, whole or in pieces.
ghost use Rattle.std.specs.Prelude.{◌≡◌, ◌+◌, ◌++◌, ◌<◌, ◌^◌, ◌⊎◌, [], List, ℕ, length, Err, None};
ghost use Rattle.us_mm.specs.declared.fault.MmFault.TheVariants.{Memory};
ghost use Rattle.us_mm.specs.Arrays.{array_in};
ghost use Rattle.us_mm.specs.Views.{Gives};
ghost use Rattle.us_mm.specs.Readers.{ArrayStands, IsArrayOut, HasRest};

use crate::MmFault;
use crate::pieces::Pieces;
use crate::stage::Head;
use std::alloc::Global;
use us_matrix::Dense;
use us_mm_lines::LineState;

/// Reads an operand file (format `array`) that comes in pieces, as `CoordinateReader` reads a coordinate file.
#[derive(Drop)]
pub struct ArrayReader {
    pieces: Pieces,
}

impl ArrayReader {
    /// A reader that has read no byte. It takes no memory.
    pub fn new(alloc: Global) -> ArrayReader
        ensures { ArrayStands result [] }
    {
        ArrayReader {
            pieces: Pieces::new(alloc, Head::ArrayHeader),
        }
    }

    /// Reads the next bytes of the file. Where memory runs out, the reader keeps that.
    pub fn feed(&mut self, piece: &[u8])
        ensures stands { (bytes : List ℕ) → length bytes + length piece.now < 2 ^ 64 → ArrayStands self.old bytes
            → IsArrayOut self.new ⊎ ArrayStands self.new (bytes ++ piece.now) }
        ensures out { IsArrayOut self.old → IsArrayOut self.new }
    {
        self.pieces.feed(piece);
    }

    /// The dense matrix of the file, or its first fault, where no byte follows.
    pub fn finish(self) -> Result<Dense, MmFault>
        ensures value { (bytes : List ℕ) → length bytes < 2 ^ 64 → ArrayStands self bytes → Gives result (array_in bytes) }
        ensures out { IsArrayOut self → result ≡ Err Memory }
    {
        let mut pieces = self.pieces;
        pieces.end()?;
        pieces.dense()
    }

    /// The state of the line that isn't ended, as long as there was no fault.
    pub fn state(&self) -> LineState
        ensures { (bytes : List ℕ) → ArrayStands self.now bytes → self.now.pieces.fault ≡ None → HasRest result bytes }
    {
        self.pieces.state()
    }
}

/// The dense matrix of an operand file (format `array`), or the first fault in it.
pub fn read_array(alloc: Global, bytes: &[u8]) -> Result<Dense, MmFault>
    ensures { Gives result (array_in bytes.now) }
{
    let mut reader = ArrayReader::new(alloc);
    reader.feed(bytes);
    reader.finish()
}

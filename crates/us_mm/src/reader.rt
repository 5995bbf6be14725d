// The reader of coordinate files, whole or in pieces.
ghost use Rattle.std.specs.Prelude.{◌≡◌, ◌+◌, ◌++◌, ◌<◌, ◌^◌, ◌⊎◌, [], List, ℕ, length, Err, None};
ghost use Rattle.us_mm.specs.declared.fault.MmFault.TheVariants.{Memory};
ghost use Rattle.us_mm.specs.Reads.{matrix_in};
ghost use Rattle.us_mm.specs.Views.{Gives};
ghost use Rattle.us_mm.specs.Readers.{Stands, IsOut, HasRest};

use crate::MmFault;
use crate::pieces::Pieces;
use crate::stage::Head;
use std::alloc::Global;
use us_matrix::Matrix;
use us_mm_lines::LineState;

/// Reads a coordinate file that comes in pieces. It keeps what the ended lines say and the state of the line that isn't
/// ended, and none of the file's bytes.
#[derive(Drop)]
pub struct CoordinateReader {
    pieces: Pieces,
}

impl CoordinateReader {
    /// A reader that has read no byte. It takes no memory.
    pub fn new(alloc: Global) -> CoordinateReader
        ensures { Stands result [] }
    {
        CoordinateReader {
            pieces: Pieces::new(alloc, Head::CoordinateHeader),
        }
    }

    /// Reads the next bytes of the file. Where memory runs out, the reader keeps that.
    pub fn feed(&mut self, piece: &[u8])
        ensures stands { (bytes : List ℕ) → length bytes + length piece.now < 2 ^ 64 → Stands self.old bytes → IsOut self.new ⊎ Stands self.new (bytes ++ piece.now) }
        ensures out { IsOut self.old → IsOut self.new }
    {
        self.pieces.feed(piece);
    }

    /// The matrix of the file, or its first fault, where no byte follows.
    pub fn finish(self) -> Result<Matrix, MmFault>
        ensures value { (bytes : List ℕ) → length bytes < 2 ^ 64 → Stands self bytes → Gives result (matrix_in bytes) }
        ensures out { IsOut self → result ≡ Err Memory }
    {
        let mut pieces = self.pieces;
        pieces.end()?;
        let (shape, triples) = pieces.triples()?;
        Ok(Matrix::from_triples(shape, triples))
    }

    /// The state of the line that isn't ended, as long as there was no fault.
    pub fn state(&self) -> LineState
        ensures { (bytes : List ℕ) → Stands self.now bytes → self.now.pieces.fault ≡ None → HasRest result bytes }
    {
        self.pieces.state()
    }
}

/// The matrix of a coordinate file, or the first fault in it.
pub fn read_coordinate(alloc: Global, bytes: &[u8]) -> Result<Matrix, MmFault>
    ensures { Gives result (matrix_in bytes.now) }
{
    let mut reader = CoordinateReader::new(alloc);
    reader.feed(bytes);
    reader.finish()
}

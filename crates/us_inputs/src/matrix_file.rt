//! Matrix files, read in pieces.
ghost use Rattle.std.specs.Prelude.{◌≡◌, [], ◌∷◌, ℕ, List, Err, IfErr, IfOk, IfSome, OnOk, false, vec_len};
ghost use Rattle.us_mm.specs.Reads.{matrix_in};
ghost use Rattle.us_mm.specs.Readers.{Stands};
ghost use Rattle.us_outside.specs.Causes.{NeverFell};
ghost use Rattle.us_outside.specs.Files.{content_of};
ghost use Rattle.us_status.specs.Uses.{reads};
ghost use Rattle.us_inputs.specs.Steps.{bytes_at, held_in_entry, input_at, is_container, matrix_step};
ghost use Rattle.us_status.specs.Answers.{IsStep, IsRefusal, IsInnerRefusal, refusal_of};
ghost use Rattle.us_inputs.specs.Views.{HasRead, input_of};

use crate::input::Input;
use std::alloc::{AllocError, Global};
use us_matrix::Matrix;
use us_mm::{CoordinateReader, MmFault};
use us_outside::{Outside, fill};
use us_status::{Slot, Status};

/// The most bytes that a file may have.
const LONGEST: u64 = 1073741824;

const PIECE: usize = 65536;

/// The most entries of a matrix whose size in the built-in format, 5 for each entry and 2, is within the limit.
const MOST_ENTRIES: usize = 13421772;

/// The input in a file that is no container, or the answer where it isn't read. A fault of the file is kept until its end
/// is there, or the place from which on it is too long.
pub fn read_matrix_file<O: Outside>(
    alloc: Global,
    outside: &mut O,
    slot: Slot,
    name: &str,
) -> Result<Input, Status>
    ensures plain { IfSome (O.files outside.old) (λ fs. false ≡ is_container (content_of fs name.now) → IsStep (input_at slot (content_of fs name.now)) (input_of result)) }
    ensures refusal { IfErr result (IsRefusal (reads slot name.now ∷ []) (O.faults outside.old) (O.faults outside.new)) }
    ensures files { O.files outside.new ≡ O.files outside.old }
    ensures printed { O.printed outside.new ≡ O.printed outside.old }
    ensures later { NeverFell (O.faults outside.old) (O.faults outside.new) }
{
    let mut reader = CoordinateReader::new(alloc);
    match feed_file(alloc, outside, slot, name, &mut reader) {
        Ok(()) => finished(slot, reader),
        Err(status) => Err(status),
    }
}

// The reader reads the whole file of a slot, up to its end.
fn feed_file<O: Outside>(
    alloc: Global,
    outside: &mut O,
    slot: Slot,
    name: &str,
    reader: &mut CoordinateReader,
) -> Result<(), Status>
    requires { Stands reader.old [] }
    ensures read { OnOk result (IfSome (O.files outside.old) (λ fs. HasRead (content_of fs name.now) reader.new)) }
    ensures plain { IfErr result (λ status. IfSome (O.files outside.old) (λ fs. IsStep (bytes_at slot (content_of fs name.now)) (Err status))) }
    ensures refusal { IfErr result (IsRefusal (reads slot name.now ∷ []) (O.faults outside.old) (O.faults outside.new)) }
    ensures files { O.files outside.new ≡ O.files outside.old }
    ensures printed { O.printed outside.new ≡ O.printed outside.old }
    ensures later { NeverFell (O.faults outside.old) (O.faults outside.new) }
{
    let mut room = zeros(alloc)?;
    let mut from = 0;
    while from <= LONGEST {
        let Ok(count) = fill(outside, name, from, room.as_mut_slice()) else {
            return Err(Status::ReadFault { slot });
        };
        if count == 0 {
            return Ok(());
        }
        reader.feed(&room[..count]);
        from += count as u64;
    }
    Err(Status::TooLong { slot })
}

// Room for a piece.
fn zeros(alloc: Global) -> Result<Vec<u8>, AllocError>
    ensures { IfOk result (λ v. vec_len v ≡ 65536) }
{
    vec![in alloc; 0u8; PIECE]
}

// What a reader of a whole file gives.
fn finished(slot: Slot, reader: CoordinateReader) -> Result<Input, Status>
    ensures plain { (bytes : List ℕ) → HasRead bytes reader → IsStep (matrix_step slot (matrix_in bytes)) (input_of result) }
    ensures refusal { IfErr result IsInnerRefusal }
{
    match reader.finish() {
        Ok(matrix) => held(matrix),
        Err(fault) => Err(refusal(slot, fault)),
    }
}

// The matrix of a file, where its size in the built-in format is within the limit.
fn held(matrix: Matrix) -> Result<Input, Status>
    ensures plain { held_in_entry matrix ≡ input_of result }
    ensures refusal { IfErr result IsInnerRefusal }
{
    if matrix.entries().len() > MOST_ENTRIES {
        return Err(Status::TooLarge { hop: 0 });
    }
    Ok(Input::File(matrix))
}

// The answer to a file that isn't a matrix file.
fn refusal(slot: Slot, fault: MmFault) -> Status
    ensures { result ≡ refusal_of slot fault }
{
    match fault {
        MmFault::Memory => Status::Memory,
        fault => Status::Matrix { slot, fault },
    }
}

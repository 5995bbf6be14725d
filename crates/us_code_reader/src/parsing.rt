//! Parsing whole programs.

ghost use Rattle.std.specs.Prelude.{◌≡◌, ◌≤◌, length};
ghost use Rattle.us_code_reader.specs.Parses.{Parses, ReadsCode, ReadsWhole, fault_of, left_at};

use crate::parsed::{CodeFault, OneProgram};
use crate::phases::{gives, phases};
use std::alloc::Global;
use us_code::Program;
use us_code_table::Lexeme;
use us_code_table::mark::Mark;
use us_code_table::note::Note;
use us_code_text::{Reader, Stop};

/// Reads one program from a place on. Behind each symbol, the last brace too, one byte is looked at, to see whether
/// the two make a longer symbol. None of these begins with a brace, so the answer doesn't turn on what stands behind
/// the program. The first fault is given: of one token `Token`, `Form` and `TooBig` in this order.
pub fn parse_program(alloc: Global, bytes: &[u8], from: usize) -> Result<OneProgram, CodeFault>
    requires { from ≤ length bytes.now }
    ensures { Parses bytes.now from result }
{
    let (_, rest) = bytes.split_at(from);
    let len = bytes.len();
    match read_code(alloc, rest) {
        Ok((program, behind)) => Ok(OneProgram {
            program,
            end: len - behind,
        }),
        Err(stop) => Err(fault(stop, len)),
    }
}

/// The fault where reading stopped in a text of so many bytes.
fn fault(stop: Stop, len: usize) -> CodeFault
    requires { left_at stop ≤ len }
    ensures { result ≡ fault_of len stop }
{
    match stop {
        Stop::Token(left) => CodeFault::Token {
            place: (len - left) as u64,
        },
        Stop::Form(left) => CodeFault::Form {
            place: (len - left) as u64,
        },
        Stop::TooBig(left) => CodeFault::TooBig {
            place: (len - left) as u64,
        },
        Stop::Memory => CodeFault::Memory,
    }
}

/// A program from the front, with how many bytes are left behind it.
fn read_code(alloc: Global, bytes: &[u8]) -> Result<(Program, usize), Stop>
    ensures { ReadsCode bytes.now result }
{
    let mut reader = Reader::new(alloc, bytes);
    program(&mut reader)
}

/// A program up to its last brace, with how many bytes are left behind that.
fn program(reader: &mut Reader<'_>) -> Result<(Program, usize), Stop>
    ensures { ReadsWhole reader.old result }
{
    if !reader.stands(Mark::Code) {
        return Err(reader.refusal());
    }
    reader.take(Some(Note::Free), Lexeme::Fixed(Mark::Code))?;
    let sources = reader.count()?;
    reader.expect(Mark::BraceOpen)?;
    let phases = phases(reader)?;
    reader.expect(Mark::Give)?;
    let give = gives(reader)?;
    let behind = reader.last(Mark::BraceClose)?;
    let program = Program {
        sources,
        phases,
        give,
    };
    Ok((program, behind))
}

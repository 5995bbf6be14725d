//! Parsing one declaration and whole libraries.

ghost use Rattle.std.specs.Prelude.{◌≡◌, ◌≤◌, true, false, length, []};
ghost use Rattle.us_parse.specs.Reads.{text_of};
ghost use Rattle.us_parse.specs.Parses.{ParsesOne, ParsesLibrary, ReadsOne, ReadsLibrary, left_at, fault_of, is_end};

use crate::parsed::{DeclFault, OneDecl};
use crate::reading::Reader;
use crate::stop::Stop;
use std::alloc::Global;
use us_decl::{Decl, Lexeme, Library, Names};
use us_tokens::{Cursor, Next};

/// Reads one declaration from a place on. Behind each symbol, the last brace too, one byte is looked
/// at, to see whether the two make a longer symbol. None of these begins with a brace, so the answer
/// doesn't turn on what stands behind the declaration.
pub fn parse_one(alloc: Global, bytes: &[u8], from: usize) -> Result<OneDecl, DeclFault>
    requires { from ≤ length bytes.now }
    ensures { ParsesOne bytes.now from result }
{
    let (_, rest) = bytes.split_at(from);
    let len = bytes.len();
    match read_one(alloc, rest) {
        Ok((decl, behind)) => Ok(OneDecl {
            decl,
            end: len - behind,
        }),
        Err(stop) => Err(fault(stop, len)),
    }
}

/// Reads a library: all the declarations of a text, no two of one name.
pub fn parse_library(alloc: Global, bytes: &[u8]) -> Result<Library, DeclFault>
    ensures { ParsesLibrary bytes.now result }
{
    let len = bytes.len();
    match read_library(alloc, bytes) {
        Ok(library) => Ok(library),
        Err(stop) => Err(fault(stop, len)),
    }
}

/// The fault where reading stopped in a text of so many bytes.
fn fault(stop: Stop, len: usize) -> DeclFault
    requires { left_at stop ≤ len }
    ensures { result ≡ fault_of len stop }
{
    match stop {
        Stop::Token(left) => DeclFault::Token {
            place: (len - left) as u64,
        },
        Stop::Form(left) => DeclFault::Form {
            place: (len - left) as u64,
        },
        Stop::TooBig(left) => DeclFault::TooBig {
            place: (len - left) as u64,
        },
        Stop::Repeated(left) => DeclFault::Repeated {
            place: (len - left) as u64,
        },
        Stop::Memory => DeclFault::Memory,
    }
}

fn is_end(cursor: &Cursor<'_, Lexeme>) -> bool
    ensures { result ≡ is_end (text_of cursor.now) }
{
    match cursor.peek() {
        Next::End => true,
        _ => false,
    }
}

/// A declaration from the front, with how many bytes are left behind it.
fn read_one(alloc: Global, bytes: &[u8]) -> Result<(Decl, usize), Stop>
    ensures { ReadsOne bytes.now result }
{
    let none = Library::new(alloc);
    let mut reader = Reader {
        alloc,
        cursor: Cursor::new(bytes),
        names: Names::new(alloc),
    };
    let decl = reader.declaration(&none)?;
    let behind = reader.cursor.behind();
    Ok((decl, behind))
}

/// Declarations up to the end.
fn read_library(alloc: Global, bytes: &[u8]) -> Result<Library, Stop>
    ensures { ReadsLibrary bytes.now result }
{
    let mut library = Library::new(alloc);
    let mut reader = Reader {
        alloc,
        cursor: Cursor::new(bytes),
        names: Names::new(alloc),
    };
    'more: while !is_end(&reader.cursor) {
        reader.names = Names::new(alloc);
        let decl = reader.declaration(&library)?;
        reader.cursor.advance();
        library.push(decl)?;
    }
    Ok(library)
}

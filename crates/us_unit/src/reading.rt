//! Reading a unit in any spelling.
ghost use Rattle.std.specs.Prelude.{◌≡◌, ◌≤◌, drop, IfOk, length};
ghost use Rattle.us_code.specs.Limits.{KeepsLimits};
ghost use Rattle.us_code.specs.Plain.{program_tree};
ghost use Rattle.us_code_reader.specs.Parses.{answer_on};
ghost use Rattle.us_code_table.specs.Words.{language};
ghost use Rattle.us_decl.specs.Declares.{IsValid};
ghost use Rattle.us_decl.specs.Views.{decl_view};
ghost use Rattle.us_tokens.specs.Lex.{lexed, Between};
ghost use Rattle.us_unit.specs.Units.{Tells, TellsProgram, TellsUnit, ended, fault_of, program_told, unit_in, unit_with};

use crate::unit::OneUnit;
use std::alloc::Global;
use us_code::Program;
use us_code_reader::{CodeFault, OneProgram, parse_program};
use us_code_table::Lexeme;
use us_code_texts::parsed_program_keeps_limits;
use us_parse::{DeclFault, OneDecl, parse_one};
use us_tokens::{Cursor, Next};

/// Reads one unit: a declaration, a program, and nothing behind it. Blanks and comments may stand before, between and
/// behind them. The first fault is given, at its place in all the bytes.
pub fn parse_unit(alloc: Global, bytes: &[u8]) -> Result<OneUnit, CodeFault>
    ensures is { TellsUnit (unit_in bytes.now) result }
    ensures valid { IfOk result (λ unit. IsValid (decl_view unit.target)) }
    ensures limits { IfOk result (λ unit. KeepsLimits (program_tree unit.program)) }
{
    match parse_one(alloc, bytes, 0) {
        Ok(one) => with_program(alloc, bytes, one),
        Err(fault) => Err(code_fault(fault)),
    }
}

// The fault of a declaration. No name is there before the first one.
fn code_fault(fault: DeclFault) -> CodeFault
    ensures { result ≡ fault_of fault }
{
    match fault {
        DeclFault::Token { place } => CodeFault::Token { place },
        DeclFault::Form { place } | DeclFault::Repeated { place } => CodeFault::Form { place },
        DeclFault::TooBig { place } => CodeFault::TooBig { place },
        DeclFault::Memory => CodeFault::Memory,
    }
}

// The unit of a declaration and the program behind it.
fn with_program(alloc: Global, bytes: &[u8], one: OneDecl) -> Result<OneUnit, CodeFault>
    requires valid { IsValid (decl_view one.decl) }
    requires within { one.end ≤ length bytes.now }
    ensures is { TellsUnit (unit_with bytes.now (decl_view one.decl) one.end) result }
    ensures valid { IfOk result (λ unit. IsValid (decl_view unit.target)) }
    ensures limits { IfOk result (λ unit. KeepsLimits (program_tree unit.program)) }
{
    match program_in(alloc, bytes, one.end) {
        Ok(program) => Ok(OneUnit {
            target: one.decl,
            program,
        }),
        Err(fault) => Err(fault),
    }
}

// The program from a place on, behind which nothing stands.
fn program_in(alloc: Global, bytes: &[u8], from: usize) -> Result<Program, CodeFault>
    requires { from ≤ length bytes.now }
    ensures is { TellsProgram (program_told bytes.now (answer_on (drop from bytes.now))) result }
    ensures limits { IfOk result (λ program. KeepsLimits (program_tree program)) }
{
    parsed_program_keeps_limits();
    match parse_program(alloc, bytes, from) {
        Ok(one) => alone(bytes, one),
        Err(fault) => Err(fault),
    }
}

// The program that was read, where nothing stands behind it.
fn alone(bytes: &[u8], one: OneProgram) -> Result<Program, CodeFault>
    requires { one.end ≤ length bytes.now }
    ensures { TellsProgram (ended (length bytes.now) (program_tree one.program) (lexed language (drop one.end bytes.now) Between)) result }
{
    match nothing_behind(bytes, one.end) {
        Ok(()) => Ok(one.program),
        Err(fault) => Err(fault),
    }
}

// Only blanks and comments stand from a place on.
fn nothing_behind(bytes: &[u8], end: usize) -> Result<(), CodeFault>
    requires { end ≤ length bytes.now }
    ensures { Tells (ended (length bytes.now) tt (lexed language (drop end bytes.now) Between)) result }
{
    let (_, behind) = bytes.split_at(end);
    let cursor = Cursor::<Lexeme>::new(behind);
    let place = bytes.len().saturating_sub(cursor.left()) as u64;
    match cursor.peek() {
        Next::End => Ok(()),
        Next::Bad => Err(CodeFault::Token { place }),
        Next::Token(_) => Err(CodeFault::Form { place }),
    }
}

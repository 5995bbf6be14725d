//! The text of a container.
ghost use Rattle.std.specs.Prelude.{◌≡◌, ◌≤◌, drop, IfOk, IfSome, length};
ghost use Rattle.us_decl.specs.Declares.{IsValid};
ghost use Rattle.us_decl.specs.Views.{decl_view};
ghost use Rattle.us_print.specs.Canon.{decl_text};
ghost use Rattle.us_parse.specs.Parses.{tokens_of};
ghost use Rattle.us_container.specs.declared.text.TextFault.TheVariants.{Memory};
ghost use Rattle.us_container.specs.Text.{first_difference, declaration_in, if_alone, if_canonical};
ghost use Rattle.us_container.specs.Answers.{TellsOf, TellsText, text_fault};

use std::alloc::{AllocError, Global};
use us_decl::{Decl, Lexeme};
use us_parse::{DeclFault, OneDecl, parse_one};
use us_print::print_decl;
use us_tokens::{Cursor, Next};

/// Why a text is not the canonical text of a declaration.
#[derive(Clone, Copy)]
pub enum TextFault {
    /// It is not from this place of the text on.
    Place(u64),
    /// Memory ran out.
    Memory,
}

impl From<AllocError> for TextFault {
    ghost from_gives = { λ _ e. e ≡ Memory };

    fn from(_e: AllocError) -> TextFault {
        TextFault::Memory
    }
}

/// The first place at which two texts differ, or at which one of them ends.
fn first_difference(left: &[u8], right: &[u8]) -> Option<usize>
    ensures is { result ≡ first_difference left.now right.now }
    ensures within { IfSome result (λ k. k ≤ length left.now) }
{
    for (k, byte) in left.iter().enumerate() {
        if k >= right.len() || *byte != right[k] {
            return Some(k);
        }
    }
    if left.len() == right.len() {
        None
    } else {
        Some(left.len())
    }
}

/// The text is the canonical text of the declaration; else the first place at which it differs.
fn is_canonical(alloc: Global, text: &[u8], decl: &Decl) -> Result<(), TextFault>
    requires { IsValid (decl_view decl.now) }
    ensures { TellsOf (length text.now) (decl_view decl.now)
        (if_canonical text.now (decl_view decl.now) (first_difference text.now (decl_text (decl_view decl.now)))) result }
{
    let wanted = print_decl(alloc, decl)?;
    match first_difference(text, &wanted) {
        None => Ok(()),
        Some(place) => Err(TextFault::Place(place as u64)),
    }
}

/// Only blanks and comments stand behind the declaration, and the text is its canonical text.
fn is_alone(alloc: Global, text: &[u8], one: &OneDecl) -> Result<(), TextFault>
    requires valid { IsValid (decl_view one.now.decl) }
    requires within { one.now.end ≤ length text.now }
    ensures { TellsOf (length text.now) (decl_view one.now.decl) (if_alone text.now (decl_view one.now.decl) (tokens_of (drop one.now.end text.now))) result }
{
    let (_, behind) = text.split_at(one.end);
    let cursor = Cursor::<Lexeme>::new(behind);
    match cursor.peek() {
        Next::End => is_canonical(alloc, text, &one.decl),
        _ => Err(TextFault::Place(text.len().saturating_sub(cursor.left()) as u64)),
    }
}

/// Where the reading of a declaration stopped.
fn text_fault(fault: DeclFault) -> TextFault
    ensures { result ≡ text_fault fault }
{
    match fault {
        DeclFault::Token { place }
        | DeclFault::Form { place }
        | DeclFault::TooBig { place }
        | DeclFault::Repeated { place } => TextFault::Place(place),
        DeclFault::Memory => TextFault::Memory,
    }
}

/// The declaration whose canonical text this is, or the first place at which it is none.
pub fn declaration_in(alloc: Global, text: &[u8]) -> Result<Decl, TextFault>
    ensures is { TellsText (length text.now) (declaration_in text.now) result }
    ensures valid { IfOk result (λ d. IsValid (decl_view d)) }
{
    match parse_one(alloc, text, 0) {
        Ok(one) => match is_alone(alloc, text, &one) {
            Ok(()) => Ok(one.decl),
            Err(fault) => Err(fault),
        },
        Err(fault) => Err(text_fault(fault)),
    }
}

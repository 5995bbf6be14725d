//! Reading blocks, and the statements that have blocks. At most 64 blocks stand inside one another, so no text makes
//! the recursion deeper than that.

ghost use Rattle.std.specs.Prelude.{◌≡◌, Some};
ghost use Rattle.us_tokens.specs.Front.{Tells};
ghost use Rattle.us_tokens.specs.declared.next.Next.TheVariants.{Token as Here};
ghost use Rattle.us_code.specs.Plain.{tree_of};
ghost use Rattle.us_code_table.specs.Table.{BlockPart, Else, ForTail, Stmts};
ghost use Rattle.us_code_text.specs.Reads.{text_of, Reads};
ghost use Rattle.us_code_reader.specs.Parts.{ReadsMaybe, ReadsOptional, ReadsStatement, bound_tree};

use crate::rest::Bound;
use crate::statements::{
    let_statement, order_statement, put_statement, set_statement, var_statement,
};
use us_code::{Block, Stmt, for_below, if_else, span, when_else};
use us_code_table::Lexeme;
use us_code_table::mark::Mark;
use us_code_table::note::Note;
use us_code_text::{Reader, Stop};
use us_tokens::Next;

/// Statements in their braces.
#[cycle(block)]
pub fn block(reader: &mut Reader<'_>) -> Result<Block, Stop>
    ensures { Reads BlockPart tree_of reader.old reader.new result }
{
    match reader.cursor.peek() {
        Next::Token(Lexeme::Fixed(Mark::BraceOpen)) => {
            reader.take(Some(Note::Free), Lexeme::Fixed(Mark::BraceOpen))?;
            let body = statements(reader)?;
            reader.expect(Mark::BraceClose)?;
            Ok(body)
        }
        _ => Err(reader.refusal()),
    }
}

/// Statements, as far as they go.
#[cycle(block)]
fn statements(reader: &mut Reader<'_>) -> Result<Block, Stop>
    ensures { ReadsMaybe Stmts tree_of reader.old reader.new result }
{
    let mut block = Block::new(reader.alloc);
    'more: loop {
        let next = statement(reader)?;
        match next {
            Some(stmt) => block.push(stmt)?,
            None => return Ok(block),
        }
    }
}

/// One statement, if one begins here.
#[cycle(block)]
fn statement(reader: &mut Reader<'_>) -> Result<Option<Stmt>, Stop>
    ensures { ReadsOptional reader.old reader.new result }
{
    match reader.cursor.peek() {
        Next::Token(Lexeme::Fixed(Mark::Let)) => Ok(Some(let_statement(reader)?)),
        Next::Token(Lexeme::Fixed(Mark::Var)) => Ok(Some(var_statement(reader)?)),
        Next::Token(Lexeme::Fixed(Mark::Put)) => Ok(Some(put_statement(reader)?)),
        Next::Token(Lexeme::Fixed(Mark::Set)) => Ok(Some(set_statement(reader)?)),
        Next::Token(Lexeme::Fixed(Mark::For)) => Ok(Some(for_statement(reader)?)),
        Next::Token(Lexeme::Fixed(Mark::If)) => Ok(Some(if_statement(reader)?)),
        Next::Token(Lexeme::Fixed(Mark::When)) => Ok(Some(when_statement(reader)?)),
        Next::Token(Lexeme::Fixed(Mark::Order)) => Ok(Some(order_statement(reader)?)),
        _ => Ok(None),
    }
}

/// What stands behind the register of a `for`.
#[cycle(block)]
fn bound(reader: &mut Reader<'_>) -> Result<Bound, Stop>
    ensures { Reads ForTail bound_tree reader.old reader.new result }
{
    match reader.cursor.peek() {
        Next::Token(Lexeme::Fixed(Mark::Below)) => {
            reader.take(Some(Note::Free), Lexeme::Fixed(Mark::Below))?;
            let below = reader.dim()?;
            let body = block(reader)?;
            Ok(Bound::Upto(below, body))
        }
        Next::Token(Lexeme::Fixed(Mark::In)) => {
            reader.take(Some(Note::Free), Lexeme::Fixed(Mark::In))?;
            let first = reader.sum()?;
            reader.expect(Mark::To)?;
            let end = reader.sum()?;
            reader.expect(Mark::Below)?;
            let below = reader.dim()?;
            let body = block(reader)?;
            Ok(Bound::Spanned(first, end, below, body))
        }
        _ => Err(reader.refusal()),
    }
}

/// A loop.
#[cycle(block)]
fn for_statement(reader: &mut Reader<'_>) -> Result<Stmt, Stop>
    requires { Tells (text_of reader.old) (Here (Lexeme.Fixed Mark.For)) }
    ensures { ReadsStatement reader.old reader.new result }
{
    reader.take(Some(Note::Item), Lexeme::Fixed(Mark::For))?;
    let reg = reader.register()?;
    let bound = bound(reader)?;
    match bound {
        Bound::Upto(below, body) => Ok(for_below(reg, below, body)),
        Bound::Spanned(first, end, below, body) => Ok(span(reg, first, end, below, body)),
    }
}

/// A choice by two terms.
#[cycle(block)]
fn if_statement(reader: &mut Reader<'_>) -> Result<Stmt, Stop>
    requires { Tells (text_of reader.old) (Here (Lexeme.Fixed Mark.If)) }
    ensures { ReadsStatement reader.old reader.new result }
{
    reader.take(Some(Note::Item), Lexeme::Fixed(Mark::If))?;
    let left = reader.sum()?;
    let equal = reader.relation()?;
    let right = reader.sum()?;
    let body = block(reader)?;
    if !reader.stands(Mark::Else) {
        return Ok(if_else(left, equal, right, body, None));
    }
    let other = other(reader)?;
    Ok(if_else(left, equal, right, body, Some(other)))
}

/// A choice by whether a value is in its range.
#[cycle(block)]
fn when_statement(reader: &mut Reader<'_>) -> Result<Stmt, Stop>
    requires { Tells (text_of reader.old) (Here (Lexeme.Fixed Mark.When)) }
    ensures { ReadsStatement reader.old reader.new result }
{
    reader.take(Some(Note::Item), Lexeme::Fixed(Mark::When))?;
    let value = reader.sum()?;
    reader.expect(Mark::Below)?;
    let below = reader.dim()?;
    reader.expect(Mark::As)?;
    let reg = reader.register()?;
    let body = block(reader)?;
    if !reader.stands(Mark::Else) {
        return Ok(when_else(value, below, reg, body, None));
    }
    let other = other(reader)?;
    Ok(when_else(value, below, reg, body, Some(other)))
}

/// The block behind `else`.
#[cycle(block)]
fn other(reader: &mut Reader<'_>) -> Result<Block, Stop>
    requires { Tells (text_of reader.old) (Here (Lexeme.Fixed Mark.Else)) }
    ensures { Reads Else (λ b. Some (tree_of b)) reader.old reader.new result }
{
    reader.take(Some(Note::Free), Lexeme::Fixed(Mark::Else))?;
    let block = block(reader)?;
    Ok(block)
}

//! Reading statements without blocks.

ghost use Rattle.std.specs.Prelude.{◌≡◌};
ghost use Rattle.us_tokens.specs.Front.{Tells};
ghost use Rattle.us_tokens.specs.declared.next.Next.TheVariants.{Token as Here};
ghost use Rattle.us_code_table.specs.Table.{Keys, LetTail};
ghost use Rattle.us_code_text.specs.Reads.{text_of, Reads};
ghost use Rattle.us_code_reader.specs.Parts.{ReadsStatement, ReadsPlace, given_tree};

use crate::rest::Given;
use us_code::{Buf, Bufs, Stmt, Term, let_reg, load, order, put, set, var};
use us_code_table::Lexeme;
use us_code_table::mark::Mark;
use us_code_table::note::Note;
use us_code_text::{Reader, Stop};
use us_tokens::Next;

/// A cell's index in its brackets.
fn place(reader: &mut Reader<'_>) -> Result<Term, Stop>
    ensures { ReadsPlace reader.old reader.new result }
{
    reader.expect(Mark::BracketOpen)?;
    let at = reader.sum()?;
    reader.expect(Mark::BracketClose)?;
    Ok(at)
}

/// What stands behind the equal sign of a `let`.
fn given(reader: &mut Reader<'_>) -> Result<Given, Stop>
    ensures { Reads LetTail given_tree reader.old reader.new result }
{
    match reader.cursor.peek() {
        Next::Token(Lexeme::Buffer(number)) => {
            reader.take(Some(Note::Free), Lexeme::Buffer(number))?;
            let at = place(reader)?;
            Ok(Given::Loaded(Buf::New(number as u32), at))
        }
        Next::Token(Lexeme::Source(number)) => {
            reader.take(Some(Note::Free), Lexeme::Source(number))?;
            let at = place(reader)?;
            Ok(Given::Loaded(Buf::Source(number as u32), at))
        }
        _ => {
            let value = reader.sum()?;
            Ok(Given::Computed(value))
        }
    }
}

/// A new register, with an expression or a cell.
pub fn let_statement(reader: &mut Reader<'_>) -> Result<Stmt, Stop>
    requires { Tells (text_of reader.old) (Here (Lexeme.Fixed Mark.Let)) }
    ensures { ReadsStatement reader.old reader.new result }
{
    reader.take(Some(Note::Item), Lexeme::Fixed(Mark::Let))?;
    let reg = reader.register()?;
    reader.expect(Mark::Equal)?;
    let given = given(reader)?;
    match given {
        Given::Computed(value) => Ok(let_reg(reg, value)),
        Given::Loaded(buf, at) => Ok(load(reg, buf, at)),
    }
}

/// A new register that can be changed.
pub fn var_statement(reader: &mut Reader<'_>) -> Result<Stmt, Stop>
    requires { Tells (text_of reader.old) (Here (Lexeme.Fixed Mark.Var)) }
    ensures { ReadsStatement reader.old reader.new result }
{
    reader.take(Some(Note::Item), Lexeme::Fixed(Mark::Var))?;
    let reg = reader.register()?;
    reader.expect(Mark::Equal)?;
    let value = reader.sum()?;
    Ok(var(reg, value))
}

/// A change of a register.
pub fn put_statement(reader: &mut Reader<'_>) -> Result<Stmt, Stop>
    requires { Tells (text_of reader.old) (Here (Lexeme.Fixed Mark.Put)) }
    ensures { ReadsStatement reader.old reader.new result }
{
    reader.take(Some(Note::Item), Lexeme::Fixed(Mark::Put))?;
    let reg = reader.register()?;
    reader.expect(Mark::Equal)?;
    let value = reader.sum()?;
    Ok(put(reg, value))
}

/// A store into a cell.
pub fn set_statement(reader: &mut Reader<'_>) -> Result<Stmt, Stop>
    requires { Tells (text_of reader.old) (Here (Lexeme.Fixed Mark.Set)) }
    ensures { ReadsStatement reader.old reader.new result }
{
    reader.take(Some(Note::Item), Lexeme::Fixed(Mark::Set))?;
    let buf = reader.key()?;
    let at = place(reader)?;
    reader.expect(Mark::Equal)?;
    let value = reader.sum()?;
    Ok(set(buf, at, value))
}

/// The keys of an order, at least one.
fn keys(reader: &mut Reader<'_>) -> Result<Bufs, Stop>
    ensures { Reads Keys (λ bs. bs) reader.old reader.new result }
{
    let mut keys = Bufs::new(reader.alloc);
    let first = reader.key()?;
    keys.push(first)?;
    'more: while reader.stands(Mark::Comma) {
        reader.take(Some(Note::Free), Lexeme::Fixed(Mark::Comma))?;
        let key = reader.key()?;
        keys.push(key)?;
    }
    Ok(keys)
}

/// A buffer put into the order of its keys.
pub fn order_statement(reader: &mut Reader<'_>) -> Result<Stmt, Stop>
    requires { Tells (text_of reader.old) (Here (Lexeme.Fixed Mark.Order)) }
    ensures { ReadsStatement reader.old reader.new result }
{
    reader.take(Some(Note::Item), Lexeme::Fixed(Mark::Order))?;
    let buf = reader.key()?;
    reader.expect(Mark::By)?;
    let keys = keys(reader)?;
    Ok(order(buf, keys))
}

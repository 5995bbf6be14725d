//! Reading the `new` lines and dim lines of a phase.

ghost use Rattle.std.specs.Prelude.{◌≡◌, map};
ghost use Rattle.us_tokens.specs.Front.{Tells};
ghost use Rattle.us_tokens.specs.declared.next.Next.TheVariants.{Token as Here};
ghost use Rattle.us_code.specs.Plain.{line_tree};
ghost use Rattle.us_code_table.specs.Table.{Behind, DimLines as LinesPart, LineTail, Makes as MakesPart};
ghost use Rattle.us_code_text.specs.Reads.{text_of, Reads};
ghost use Rattle.us_code_reader.specs.Parts.{ReadsDimLine, ReadsMake, ReadsMaybe, operator, shape_tree};

use crate::rest::Shape;
use us_code::{Dim, DimLine, DimLines, Make, Makes};
use us_code_table::Lexeme;
use us_code_table::mark::Mark;
use us_code_table::note::Note;
use us_code_text::{Reader, Stop};
use us_tokens::Next;

/// A new buffer.
fn make(reader: &mut Reader<'_>) -> Result<Make, Stop>
    requires { Tells (text_of reader.old) (Here (Lexeme.Fixed Mark.New)) }
    ensures { ReadsMake reader.old reader.new result }
{
    reader.take(Some(Note::Item), Lexeme::Fixed(Mark::New))?;
    let buf = reader.new_buffer()?;
    reader.expect(Mark::BracketOpen)?;
    let len = reader.dim()?;
    reader.expect(Mark::BracketClose)?;
    let cell = reader.cell()?;
    Ok(Make { buf, len, cell })
}

/// The new buffers of a phase.
pub fn makes(reader: &mut Reader<'_>) -> Result<Makes, Stop>
    ensures { ReadsMaybe MakesPart (λ ms. ms) reader.old reader.new result }
{
    let mut makes = Makes::new(reader.alloc);
    'more: while reader.stands(Mark::New) {
        let make = make(reader)?;
        makes.push(make)?;
    }
    Ok(makes)
}

/// What stands behind the first dim of a product or a successor: the other factor, or nothing where it is plus 1.
fn factor(reader: &mut Reader<'_>) -> Result<Option<Dim>, Stop>
    ensures { Reads Behind operator reader.old reader.new result }
{
    match reader.cursor.peek() {
        Next::Token(Lexeme::Fixed(Mark::Star)) => {
            reader.take(Some(Note::Free), Lexeme::Fixed(Mark::Star))?;
            let right = reader.dim()?;
            Ok(Some(right))
        }
        Next::Token(Lexeme::Fixed(Mark::Plus)) => {
            reader.take(Some(Note::Free), Lexeme::Fixed(Mark::Plus))?;
            reader.one()?;
            Ok(None)
        }
        _ => Err(reader.refusal()),
    }
}

/// What stands behind the name of a dim that is defined.
fn shape(reader: &mut Reader<'_>) -> Result<Shape, Stop>
    ensures { Reads LineTail shape_tree reader.old reader.new result }
{
    match reader.cursor.peek() {
        Next::Token(Lexeme::Fixed(Mark::Of)) => {
            reader.take(Some(Note::Free), Lexeme::Fixed(Mark::Of))?;
            let value = reader.sum()?;
            Ok(Shape::Takes(value))
        }
        Next::Token(Lexeme::Fixed(Mark::Equal)) => {
            reader.take(Some(Note::Free), Lexeme::Fixed(Mark::Equal))?;
            let left = reader.dim()?;
            let right = factor(reader)?;
            match right {
                Some(right) => Ok(Shape::Times(left, right)),
                None => Ok(Shape::Follows(left)),
            }
        }
        _ => Err(reader.refusal()),
    }
}

/// The definition of a dim.
fn dim_line(reader: &mut Reader<'_>) -> Result<DimLine, Stop>
    requires { Tells (text_of reader.old) (Here (Lexeme.Fixed Mark.Dim)) }
    ensures { ReadsDimLine reader.old reader.new result }
{
    reader.take(Some(Note::Item), Lexeme::Fixed(Mark::Dim))?;
    let dim = reader.dim_name()?;
    let shape = shape(reader)?;
    match shape {
        Shape::Takes(value) => Ok(DimLine::Of { dim, value }),
        Shape::Times(left, right) => Ok(DimLine::Product { dim, left, right }),
        Shape::Follows(of) => Ok(DimLine::Next { dim, of }),
    }
}

/// The definitions of dims of a phase.
pub fn dim_lines(reader: &mut Reader<'_>) -> Result<DimLines, Stop>
    ensures { ReadsMaybe LinesPart (map line_tree) reader.old reader.new result }
{
    let mut lines = DimLines::new(reader.alloc);
    'more: while reader.stands(Mark::Dim) {
        let line = dim_line(reader)?;
        lines.push(line)?;
    }
    Ok(lines)
}

//! Reading phases, and what a program gives.

ghost use Rattle.std.specs.Prelude.{◌≡◌, map};
ghost use Rattle.us_tokens.specs.Front.{Tells};
ghost use Rattle.us_tokens.specs.declared.next.Next.TheVariants.{Token as Here};
ghost use Rattle.us_code.specs.Plain.{phase_tree};
ghost use Rattle.us_code_table.specs.Table.{Gives, Phases as PhasesPart};
ghost use Rattle.us_code_text.specs.Reads.{text_of};
ghost use Rattle.us_code_reader.specs.Parts.{ReadsMaybe, ReadsPhase};

use crate::blocks::block;
use crate::lines::{dim_lines, makes};
use us_code::{Numbers, Phase, Phases};
use us_code_table::Lexeme;
use us_code_table::mark::Mark;
use us_code_table::note::Note;
use us_code_text::{Reader, Stop};
use us_tokens::Next;

/// A phase.
fn phase(reader: &mut Reader<'_>) -> Result<Phase, Stop>
    requires { Tells (text_of reader.old) (Here (Lexeme.Fixed Mark.Phase)) }
    ensures { ReadsPhase reader.old reader.new result }
{
    reader.take(Some(Note::Free), Lexeme::Fixed(Mark::Phase))?;
    reader.expect(Mark::BraceOpen)?;
    let makes = makes(reader)?;
    reader.expect(Mark::Do)?;
    let body = block(reader)?;
    let dims = dim_lines(reader)?;
    reader.expect(Mark::BraceClose)?;
    Ok(Phase { makes, body, dims })
}

/// The phases of a program.
pub fn phases(reader: &mut Reader<'_>) -> Result<Phases, Stop>
    ensures { ReadsMaybe PhasesPart (map phase_tree) reader.old reader.new result }
{
    let mut phases = Phases::new(reader.alloc);
    'more: while reader.stands(Mark::Phase) {
        let phase = phase(reader)?;
        phases.push(phase)?;
    }
    Ok(phases)
}

/// The new buffers that a program gives.
pub fn gives(reader: &mut Reader<'_>) -> Result<Numbers, Stop>
    ensures { ReadsMaybe Gives (λ ns. ns) reader.old reader.new result }
{
    let mut gives = Numbers::new(reader.alloc);
    let Next::Token(Lexeme::Buffer(number)) = reader.cursor.peek() else {
        return Ok(gives);
    };
    reader.take(Some(Note::ListName), Lexeme::Buffer(number))?;
    gives.push(number as u32)?;
    'more: while reader.stands(Mark::Comma) {
        reader.take(Some(Note::Free), Lexeme::Fixed(Mark::Comma))?;
        let name = reader.given_name()?;
        gives.push(name)?;
    }
    Ok(gives)
}

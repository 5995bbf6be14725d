//! Reading the levels, numbers and packs of a part.

ghost use Rattle.std.specs.Prelude.{◌≡◌, ◌≤◌, true, false, length, [], IfOk, IfErr, Result};
ghost use Rattle.us_parse.specs.Reads.{text_of, lead, is_fixed, Took, number_fault};
ghost use Rattle.us_decl.specs.Limits.{fits_column};
ghost use Rattle.us_parse.specs.Piece.{AtLevels};
ghost use Rattle.us_parse.specs.ReadsBodies.{ReadsPacks, ReadsOptional, ReadsStorage, ReadsMapping, ReadsPart, ReadsWhole};
ghost use Rattle.us_parse.specs.ReadsParts.{ReadsLevel, ReadsMap, ReadsNumbers, ReadsColumns, ReadsPack, operand_excess, column_token, has_column, column_fault};

use crate::reading::Reader;
use crate::stop::Stop;
use crate::storage::Storage;
use crate::tokens::{excess, expect, number, refusal, stands, take};
use std::alloc::Global;
use std::mem;
use us_decl::{Column, Levels, Lexeme, Mark, Names, Numbers, Pack, Packs, Part, Queries};
use us_tokens::{Cursor, Next};

/// The fault where an operand is one too many.
fn surplus_operand(cursor: &Cursor<'_, Lexeme>) -> Stop
    ensures { result ≡ operand_excess (text_of cursor.now) }
{
    match cursor.peek() {
        Next::Token(Lexeme::Fixed(Mark::I)) => excess(cursor),
        Next::Token(Lexeme::Fixed(Mark::J)) => excess(cursor),
        Next::Token(Lexeme::Fixed(Mark::Open)) => excess(cursor),
        Next::Token(Lexeme::Name) => excess(cursor),
        Next::Token(Lexeme::Number(_)) => excess(cursor),
        _ => refusal(cursor),
    }
}

/// The fault where a number is one too many.
fn surplus_number(cursor: &Cursor<'_, Lexeme>) -> Stop
    ensures { result ≡ number_fault (text_of cursor.now) }
{
    match cursor.peek() {
        Next::Token(Lexeme::Number(_)) => excess(cursor),
        _ => refusal(cursor),
    }
}

/// The fault where a column is one too many.
fn surplus_column(cursor: &Cursor<'_, Lexeme>) -> Stop
    ensures { result ≡ column_fault (text_of cursor.now) }
{
    match cursor.peek() {
        Next::Token(Lexeme::Number(_)) => excess(cursor),
        Next::Token(Lexeme::Fixed(Mark::Val)) => excess(cursor),
        _ => refusal(cursor),
    }
}

/// A column of a pack, which has to stand here.
fn column(cursor: &mut Cursor<'_, Lexeme>) -> Result<Column, Stop>
    ensures ok { IfOk result (λ k. Took (text_of cursor.old) (text_of cursor.new) (column_token k) × (fits_column k ≡ true)) }
    ensures err { IfErr result (λ e. (e ≡ column_fault (text_of cursor.old)) × (has_column (text_of cursor.old) ≡ false)) }
{
    match cursor.peek() {
        Next::Token(Lexeme::Fixed(Mark::Val)) => {
            cursor.advance();
            Ok(Column::Val)
        }
        Next::Token(Lexeme::Number(k)) if k <= 2147483647 => {
            cursor.advance();
            Ok(Column::Level(k))
        }
        Next::Token(Lexeme::Number(_)) => Err(excess(cursor)),
        _ => Err(refusal(cursor)),
    }
}

/// Numbers with commas between them.
fn numbers(alloc: Global, cursor: &mut Cursor<'_, Lexeme>) -> Result<Numbers, Stop>
    ensures { ReadsNumbers (text_of cursor.old) (text_of cursor.new) result }
{
    let mut numbers = Numbers::new(alloc);
    let first = number(cursor)?;
    numbers.push(first)?;
    'more: while take(cursor, Mark::Comma) {
        let count = numbers.len();
        if count >= 16 {
            return Err(surplus_number(cursor));
        }
        let next = number(cursor)?;
        numbers.push(next)?;
    }
    Ok(numbers)
}

/// Columns with commas between them.
fn columns(alloc: Global, cursor: &mut Cursor<'_, Lexeme>) -> Result<Pack, Stop>
    ensures { ReadsColumns (text_of cursor.old) (text_of cursor.new) result }
{
    let mut columns = Pack::new(alloc);
    let first = column(cursor)?;
    columns.push(first)?;
    'more: while take(cursor, Mark::Comma) {
        let count = columns.len();
        if count >= 16 {
            return Err(surplus_column(cursor));
        }
        let next = column(cursor)?;
        columns.push(next)?;
    }
    Ok(columns)
}

/// A pack, behind its word.
fn pack(alloc: Global, cursor: &mut Cursor<'_, Lexeme>) -> Result<Pack, Stop>
    ensures { ReadsPack (text_of cursor.old) (text_of cursor.new) result }
{
    expect(cursor, Mark::Open)?;
    let columns = columns(alloc, cursor)?;
    expect(cursor, Mark::Close)?;
    Ok(columns)
}

/// The packs of a part.
fn packs(alloc: Global, cursor: &mut Cursor<'_, Lexeme>) -> Result<Packs, Stop>
    ensures { ReadsPacks (text_of cursor.old) (text_of cursor.new) result }
{
    let mut packs = Packs::new(alloc);
    'more: while stands(cursor, Mark::Pack) {
        let count = packs.len();
        if count >= 16 {
            return Err(excess(cursor));
        }
        cursor.advance();
        let pack = pack(alloc, cursor)?;
        packs.push(pack)?;
    }
    Ok(packs)
}

/// A word and its numbers, if the word stands here.
fn optional(alloc: Global, cursor: &mut Cursor<'_, Lexeme>, mark: Mark) -> Result<Numbers, Stop>
    ensures { ReadsOptional mark (text_of cursor.old) (text_of cursor.new) result }
{
    if take(cursor, mark) {
        numbers(alloc, cursor)
    } else {
        Ok(Numbers::new(alloc))
    }
}

/// What stands behind the map of a part, up to its brace.
fn storage(alloc: Global, cursor: &mut Cursor<'_, Lexeme>) -> Result<Storage, Stop>
    ensures { ReadsStorage (text_of cursor.old) (text_of cursor.new) result }
{
    let trim = optional(alloc, cursor, Mark::Trim)?;
    let merge = optional(alloc, cursor, Mark::Merge)?;
    let packs = packs(alloc, cursor)?;
    let ends = stands(cursor, Mark::BraceClose);
    if !ends {
        return Err(refusal(cursor));
    }
    Ok(Storage { trim, merge, packs })
}

impl Reader<'_> {
    /// One more level.
    fn level(&mut self, levels: &mut Levels) -> Result<(), Stop>
        requires { length self.old.names ≤ 32 }
        ensures { ReadsLevel (text_of self.old.cursor) (text_of self.new.cursor) self.old.names self.new.names levels.old levels.new result }
    {
        let count = levels.len();
        if count >= 16 {
            return Err(surplus_operand(&self.cursor));
        }
        let (level, _) = self.expr(0, 0)?;
        levels.push(level)?;
        Ok(())
    }

    /// The levels of a map, behind its parenthesis.
    fn levels(&mut self) -> Result<Levels, Stop>
        requires { length self.old.names ≤ 32 }
        ensures { ReadsMap (text_of self.old.cursor) (text_of self.new.cursor) AtLevels self.old.names self.new.names result }
    {
        let mut levels = Levels::new(self.alloc);
        if take(&mut self.cursor, Mark::Close) {
            return Ok(levels);
        }
        self.level(&mut levels)?;
        'more: while take(&mut self.cursor, Mark::Comma) {
            self.level(&mut levels)?;
        }
        expect(&mut self.cursor, Mark::Close)?;
        Ok(levels)
    }

    /// The map of a part, behind its queries.
    fn mapping(&mut self) -> Result<Levels, Stop>
        requires names { length self.old.names ≤ 32 }
        requires queries { is_fixed Mark.Let (lead (text_of self.old.cursor)) ≡ false }
        ensures { ReadsMapping (text_of self.old.cursor) (text_of self.new.cursor) self.old.names self.new.names result }
    {
        expect(&mut self.cursor, Mark::Map)?;
        expect(&mut self.cursor, Mark::Open)?;
        self.levels()
    }

    /// A part behind its queries, up to its brace.
    pub fn part(&mut self, queries: Queries) -> Result<Part, Stop>
        requires names { length self.old.names ≤ 32 }
        requires queries { is_fixed Mark.Let (lead (text_of self.old.cursor)) ≡ false }
        ensures { ReadsPart (text_of self.old.cursor) (text_of self.new.cursor) self.old.names self.new.names queries result }
    {
        let levels = self.mapping()?;
        let storage = storage(self.alloc, &mut self.cursor)?;
        let names = mem::replace(&mut self.names, Names::new(self.alloc));
        Ok(Part {
            names,
            queries,
            levels,
            trim: storage.trim,
            merge: storage.merge,
            packs: storage.packs,
        })
    }

    /// A part with its queries, up to its brace.
    pub fn whole_part(&mut self) -> Result<Part, Stop>
        requires { self.old.names ≡ [] }
        ensures { ReadsWhole (text_of self.old.cursor) (text_of self.new.cursor) self.new.names result }
    {
        let queries = self.queries()?;
        self.part(queries)
    }
}

//! Reading a token at a time.

ghost use Rattle.std.specs.Prelude.{◌≡◌, ◌<◌, true, false, OnOk, IfOk, IfErr, MatchOption};
ghost use Rattle.us_tokens.specs.Front.{Tells};
ghost use Rattle.us_tokens.specs.Text.{left_of};
ghost use Rattle.us_tokens.specs.Lex.{lexed, Between};
ghost use Rattle.us_tokens.specs.declared.next.Next.TheVariants.{Token as Here};
ghost use Rattle.us_code_table.specs.Table.{Divisor, Register, DimName as DimPart, DimOrNumber, NewBuffer, Key, Count, Relation, Kind, GiveName};
ghost use Rattle.us_code_table.specs.Limits.{value_fits, nothing};
ghost use Rattle.us_code_table.specs.Words.{language, token};
ghost use Rattle.us_code_text.specs.Reads.{text_of, count_of, size, Reads, ReadsFixed, ReadsOne, ReadsLast, Takes, Exceeds, Lacks, LacksFixed, refusal_of};

use crate::counting::{behind, none};
use crate::meter::Meter;
use crate::stop::Stop;
use std::alloc::Global;
use us_code::{Buf, CellKind, Dim};
use us_code_table::Lexeme;
use us_code_table::mark::Mark;
use us_code_table::note::Note;
use us_tokens::{Cursor, Next};

/// A text that is being read.
#[derive(Drop)]
pub struct Reader<'a> {
    pub alloc: Global,
    pub cursor: Cursor<'a, Lexeme>,
    pub meter: Meter,
}

impl<'a> Reader<'a> {
    /// At the first token of a text.
    pub fn new(alloc: Global, bytes: &'a [u8]) -> Reader<'a>
        ensures text { text_of result ≡ lexed language bytes.now Between }
        ensures count { count_of result ≡ nothing }
    {
        Reader {
            alloc,
            cursor: Cursor::new(bytes),
            meter: none(),
        }
    }
}

impl Reader<'_> {
    /// The fault where the token here can't stand.
    pub fn refusal(&self) -> Stop
        ensures { result ≡ refusal_of (text_of self.now) }
    {
        match self.cursor.peek() {
            Next::Bad => Stop::Token(self.cursor.left()),
            _ => Stop::Form(self.cursor.left()),
        }
    }

    /// Goes on behind the token that stands here.
    pub fn take(&mut self, note: Option<Note>, lexeme: Lexeme) -> Result<(), Stop>
        requires { Tells (text_of self.old) (Here lexeme) }
        ensures ok { OnOk result (Takes note lexeme self.old self.new) }
        ensures small { OnOk result (value_fits (token lexeme).class (token lexeme).value ≡ true) }
        ensures err { IfErr result (λ e. (e ≡ Stop.TooBig (left_of (text_of self.old))) × Exceeds note lexeme self.old) }
    {
        let Some(meter) = behind(self.meter, note, lexeme) else {
            return Err(Stop::TooBig(self.cursor.left()));
        };
        self.meter = meter;
        self.cursor.advance();
        Ok(())
    }

    /// Whether this word or symbol stands here.
    pub fn stands(&self, mark: Mark) -> bool
        ensures yes { result ≡ true → Tells (text_of self.now) (Here (Lexeme.Fixed mark)) }
        ensures no { result ≡ false → LacksFixed mark self.now }
    {
        match self.cursor.peek() {
            Next::Token(Lexeme::Fixed(found)) => found == mark,
            _ => false,
        }
    }

    /// Goes on behind this word or symbol, which has to stand here.
    pub fn expect(&mut self, mark: Mark) -> Result<(), Stop>
        ensures { ReadsFixed mark self.old self.new result }
    {
        if !self.stands(mark) {
            return Err(self.refusal());
        }
        self.take(None, Lexeme::Fixed(mark))
    }

    /// How many bytes are left behind this word or symbol, which has to stand here and ends the text that is read.
    pub fn last(&self, mark: Mark) -> Result<usize, Stop>
        ensures { ReadsLast mark self.now result }
    {
        if !self.stands(mark) {
            return Err(self.refusal());
        }
        match behind(self.meter, None, Lexeme::Fixed(mark)) {
            Some(_) => Ok(self.cursor.behind()),
            None => Err(Stop::TooBig(self.cursor.left())),
        }
    }

    /// The number 1.
    pub fn one(&mut self) -> Result<(), Stop>
        ensures { ReadsOne self.old self.new result }
    {
        match self.cursor.peek() {
            Next::Token(Lexeme::Number(1)) => self.take(None, Lexeme::Number(1)),
            _ => Err(self.refusal()),
        }
    }

    /// How many sources a program has.
    pub fn count(&mut self) -> Result<u32, Stop>
        ensures { Reads Count (λ k. k) self.old self.new result }
    {
        match self.cursor.peek() {
            Next::Token(Lexeme::Number(number)) => {
                self.take(Some(Note::SourceCount), Lexeme::Number(number))?;
                Ok(self.meter.sources as u32)
            }
            _ => Err(self.refusal()),
        }
    }

    /// The name of a register.
    pub fn register(&mut self) -> Result<u32, Stop>
        ensures { Reads Register (λ k. k) self.old self.new result }
    {
        match self.cursor.peek() {
            Next::Token(Lexeme::Register(number)) => {
                self.take(Some(Note::Free), Lexeme::Register(number))?;
                Ok(number as u32)
            }
            _ => Err(self.refusal()),
        }
    }

    /// The name of a dim.
    pub fn dim_name(&mut self) -> Result<u32, Stop>
        ensures { Reads DimPart (λ k. k) self.old self.new result }
    {
        match self.cursor.peek() {
            Next::Token(Lexeme::DimName(number)) => {
                self.take(Some(Note::Free), Lexeme::DimName(number))?;
                Ok(number as u32)
            }
            _ => Err(self.refusal()),
        }
    }

    /// The name of a new buffer.
    pub fn new_buffer(&mut self) -> Result<u32, Stop>
        ensures { Reads NewBuffer (λ k. k) self.old self.new result }
    {
        match self.cursor.peek() {
            Next::Token(Lexeme::Buffer(number)) => {
                self.take(Some(Note::Free), Lexeme::Buffer(number))?;
                Ok(number as u32)
            }
            _ => Err(self.refusal()),
        }
    }

    /// One more name of the list that a program gives.
    pub fn given_name(&mut self) -> Result<u32, Stop>
        ensures { Reads GiveName (λ k. k) self.old self.new result }
    {
        match self.cursor.peek() {
            Next::Token(Lexeme::Buffer(number)) => {
                self.take(Some(Note::ListName), Lexeme::Buffer(number))?;
                Ok(number as u32)
            }
            _ => Err(self.refusal()),
        }
    }

    /// A buffer that is stored into, ordered, or a key.
    pub fn key(&mut self) -> Result<Buf, Stop>
        ensures { Reads Key (λ k. k) self.old self.new result }
    {
        match self.cursor.peek() {
            Next::Token(Lexeme::Buffer(number)) => {
                self.take(Some(Note::ListName), Lexeme::Buffer(number))?;
                Ok(Buf::New(number as u32))
            }
            Next::Token(Lexeme::Source(number)) => {
                self.take(Some(Note::ListName), Lexeme::Source(number))?;
                Ok(Buf::Source(number as u32))
            }
            _ => Err(self.refusal()),
        }
    }

    /// A length or a bound.
    pub fn dim(&mut self) -> Result<Dim, Stop>
        ensures { Reads DimOrNumber (λ d. d) self.old self.new result }
    {
        match self.cursor.peek() {
            Next::Token(Lexeme::DimName(number)) => {
                self.take(Some(Note::Free), Lexeme::DimName(number))?;
                Ok(Dim::Name(number as u32))
            }
            Next::Token(Lexeme::Length(number)) => {
                self.take(Some(Note::Free), Lexeme::Length(number))?;
                Ok(Dim::Len(number as u32))
            }
            Next::Token(Lexeme::Number(number)) => {
                self.take(Some(Note::Free), Lexeme::Number(number))?;
                Ok(Dim::Number(number))
            }
            _ => Err(self.refusal()),
        }
    }

    /// The number behind `/` or `%`.
    pub fn divisor(&mut self) -> Result<u64, Stop>
        ensures { Reads Divisor (λ k. k) self.old self.new result }
    {
        match self.cursor.peek() {
            Next::Token(Lexeme::Number(number)) if number > 0 => {
                self.take(Some(Note::Free), Lexeme::Number(number))?;
                Ok(number)
            }
            _ => Err(self.refusal()),
        }
    }

    /// Whether the first of two terms is to be equal to the second, or less.
    pub fn relation(&mut self) -> Result<bool, Stop>
        ensures { Reads Relation (λ b. b) self.old self.new result }
    {
        match self.cursor.peek() {
            Next::Token(Lexeme::Fixed(Mark::Less)) => {
                self.take(Some(Note::Free), Lexeme::Fixed(Mark::Less))?;
                Ok(false)
            }
            Next::Token(Lexeme::Fixed(Mark::Same)) => {
                self.take(Some(Note::Free), Lexeme::Fixed(Mark::Same))?;
                Ok(true)
            }
            _ => Err(self.refusal()),
        }
    }

    /// What the cells of a new buffer hold.
    pub fn cell(&mut self) -> Result<CellKind, Stop>
        ensures { Reads Kind (λ c. c) self.old self.new result }
    {
        match self.cursor.peek() {
            Next::Token(Lexeme::Fixed(Mark::Word)) => {
                self.take(Some(Note::Free), Lexeme::Fixed(Mark::Word))?;
                Ok(CellKind::Word)
            }
            Next::Token(Lexeme::Fixed(Mark::Below)) => {
                self.take(Some(Note::Free), Lexeme::Fixed(Mark::Below))?;
                let dim = self.dim()?;
                Ok(CellKind::Below(dim))
            }
            _ => Err(self.refusal()),
        }
    }
}

//! Reading expressions.

ghost use Rattle.std.specs.Prelude.{◌≡◌, ◌<◌};
ghost use Rattle.us_code_table.specs.Table.{Sum, Product, Atom};
ghost use Rattle.us_code_text.specs.Reads.{Reads};
ghost use Rattle.us_code.specs.Plain.{term_tree};

use crate::reader::Reader;
use crate::stop::Stop;
use us_code::{Term, add, div, flat, mul, next, rem, sub, up};
use us_code_table::Lexeme;
use us_code_table::mark::Mark;
use us_code_table::note::Note;
use us_tokens::Next;

impl Reader<'_> {
    /// An operand.
    #[cycle(sum)]
    fn atom(&mut self) -> Result<Term, Stop>
        ensures { Reads Atom term_tree self.old self.new result }
    {
        match self.cursor.peek() {
            Next::Token(Lexeme::Register(register)) => {
                self.take(Some(Note::Node), Lexeme::Register(register))?;
                Ok(Term::Reg(register as u32))
            }
            Next::Token(Lexeme::Number(number)) => {
                self.take(Some(Note::Node), Lexeme::Number(number))?;
                Ok(Term::Number(number))
            }
            Next::Token(Lexeme::Fixed(Mark::Open)) => {
                self.take(Some(Note::Free), Lexeme::Fixed(Mark::Open))?;
                let inner = self.sum()?;
                self.expect(Mark::Close)?;
                Ok(inner)
            }
            Next::Token(Lexeme::Fixed(Mark::Flat)) => {
                self.take(Some(Note::Node), Lexeme::Fixed(Mark::Flat))?;
                let dim = self.dim_name()?;
                self.expect(Mark::Open)?;
                let left = self.sum()?;
                self.expect(Mark::Comma)?;
                let right = self.sum()?;
                self.expect(Mark::Close)?;
                Ok(flat(self.alloc, dim, left, right)?)
            }
            Next::Token(Lexeme::Fixed(Mark::Size)) => {
                self.take(Some(Note::Node), Lexeme::Fixed(Mark::Size))?;
                self.expect(Mark::Open)?;
                let dim = self.dim()?;
                self.expect(Mark::Close)?;
                Ok(Term::Size(dim))
            }
            Next::Token(Lexeme::Fixed(Mark::Next)) => {
                self.take(Some(Note::Node), Lexeme::Fixed(Mark::Next))?;
                let dim = self.dim_name()?;
                self.expect(Mark::Open)?;
                let inner = self.sum()?;
                self.expect(Mark::Close)?;
                Ok(next(self.alloc, dim, inner)?)
            }
            Next::Token(Lexeme::Fixed(Mark::Up)) => {
                self.take(Some(Note::Node), Lexeme::Fixed(Mark::Up))?;
                let dim = self.dim_name()?;
                self.expect(Mark::Open)?;
                let inner = self.sum()?;
                self.expect(Mark::Close)?;
                Ok(up(self.alloc, dim, inner)?)
            }
            _ => Err(self.refusal()),
        }
    }

    /// Operands with `*` between them.
    #[cycle(sum)]
    fn product(&mut self) -> Result<Term, Stop>
        ensures { Reads Product term_tree self.old self.new result }
    {
        let mut product = self.atom()?;
        'more: loop {
            match self.cursor.peek() {
                Next::Token(Lexeme::Fixed(Mark::Star)) => {
                    self.take(Some(Note::Node), Lexeme::Fixed(Mark::Star))?;
                    let right = self.atom()?;
                    product = mul(self.alloc, product, right)?;
                }
                Next::Token(Lexeme::Fixed(Mark::Slash)) => {
                    self.take(Some(Note::Node), Lexeme::Fixed(Mark::Slash))?;
                    let by = self.divisor()?;
                    product = div(self.alloc, product, by)?;
                }
                Next::Token(Lexeme::Fixed(Mark::Percent)) => {
                    self.take(Some(Note::Node), Lexeme::Fixed(Mark::Percent))?;
                    let by = self.divisor()?;
                    product = rem(self.alloc, product, by)?;
                }
                _ => return Ok(product),
            }
        }
    }

    /// Products with `+` between them.
    #[cycle(sum)]
    pub fn sum(&mut self) -> Result<Term, Stop>
        ensures { Reads Sum term_tree self.old self.new result }
    {
        let mut sum = self.product()?;
        'more: loop {
            match self.cursor.peek() {
                Next::Token(Lexeme::Fixed(Mark::Plus)) => {
                    self.take(Some(Note::Node), Lexeme::Fixed(Mark::Plus))?;
                    let right = self.product()?;
                    sum = add(self.alloc, sum, right)?;
                }
                Next::Token(Lexeme::Fixed(Mark::Minus)) => {
                    self.take(Some(Note::Node), Lexeme::Fixed(Mark::Minus))?;
                    let right = self.product()?;
                    sum = sub(self.alloc, sum, right)?;
                }
                _ => return Ok(sum),
            }
        }
    }
}

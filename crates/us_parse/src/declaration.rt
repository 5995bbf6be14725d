//! Reading heads, bodies and whole declarations.

ghost use Rattle.std.specs.Prelude.{◌≡◌, ◌≤◌, true, false, length, [], IfOk, IfErr};
ghost use Rattle.us_decl.specs.Grammar.{sign_token};
ghost use Rattle.us_decl.specs.Views.{decl_names};
ghost use Rattle.us_parse.specs.Reads.{text_of, lead, is_fixed, refused_at, Took};
ghost use Rattle.us_parse.specs.ReadsDecls.{has_sign, ReadsCondition, ReadsBraced, ReadsBlocks, ReadsRest, ReadsDivided, ReadsBody, ReadsDecl};

use crate::reading::Reader;
use crate::stop::Stop;
use crate::tokens::{excess, expect, name, number, refusal, stands, variable};
use std::mem;
use us_decl::{Body, Conds, Decl, Head, Lexeme, Library, Mark, Names, Part, Parts, Queries};
use us_expr::Cond;
use us_tokens::{Cursor, Next};

/// How many conditions a head has at most.
const MOST_CONDITIONS: usize = 3;

/// The sign of a condition, which has to stand here: whether it is `<`.
fn sign(cursor: &mut Cursor<'_, Lexeme>) -> Result<bool, Stop>
    ensures ok { IfOk result (λ less. Took (text_of cursor.old) (text_of cursor.new) (sign_token less)) }
    ensures err { IfErr result (λ e. (e ≡ refused_at (text_of cursor.old)) × (has_sign (lead (text_of cursor.old)) ≡ false)) }
{
    match cursor.peek() {
        Next::Token(Lexeme::Fixed(Mark::Less)) => {
            cursor.advance();
            Ok(true)
        }
        Next::Token(Lexeme::Fixed(Mark::AtLeast)) => {
            cursor.advance();
            Ok(false)
        }
        _ => Err(refusal(cursor)),
    }
}

/// A condition, from its first word up to the brace of its part, over the names of its head so far.
fn condition(cursor: &mut Cursor<'_, Lexeme>, names: &mut Names) -> Result<Cond, Stop>
    requires known { length names.old ≤ 32 }
    requires part { is_fixed Mark.Part (lead (text_of cursor.old)) ≡ true }
    ensures { ReadsCondition (text_of cursor.old) (text_of cursor.new) names.old names.new result }
{
    cursor.advance();
    expect(cursor, Mark::When)?;
    let var = variable(cursor, names)?;
    let less = sign(cursor)?;
    let bound = number(cursor)?;
    Ok(Cond { var, less, bound })
}

impl Reader<'_> {
    /// A part in its braces.
    fn braced(&mut self) -> Result<Part, Stop>
        requires { self.old.names ≡ [] }
        ensures { ReadsBraced (text_of self.old.cursor) (text_of self.new.cursor) self.new.names result }
    {
        expect(&mut self.cursor, Mark::BraceOpen)?;
        let part = self.whole_part()?;
        self.cursor.advance();
        Ok(part)
    }

    /// The conditions behind the queries of a head, each with its part.
    fn blocks(&mut self, names: &mut Names, conds: &mut Conds) -> Result<Parts, Stop>
        requires known { length names.old ≤ 32 }
        requires none { conds.old ≡ [] }
        requires own { self.old.names ≡ [] }
        ensures { ReadsBlocks (text_of self.old.cursor) (text_of self.new.cursor) names.old names.new self.new.names conds.new result }
    {
        let mut parts = Parts::new(self.alloc);
        'more: while stands(&self.cursor, Mark::Part) {
            let count = parts.len();
            if count >= MOST_CONDITIONS {
                return Err(excess(&self.cursor));
            }
            let cond = condition(&mut self.cursor, names)?;
            let part = self.braced()?;
            conds.push(cond)?;
            parts.push(part)?;
        }
        Ok(parts)
    }

    /// The part of the rest, up to the last brace of the body.
    fn rest(&mut self) -> Result<Part, Stop>
        requires own { self.old.names ≡ [] }
        requires last { is_fixed Mark.Part (lead (text_of self.old.cursor)) ≡ false }
        ensures { ReadsRest (text_of self.old.cursor) (text_of self.new.cursor) result }
    {
        expect(&mut self.cursor, Mark::Rest)?;
        let part = self.braced()?;
        let ends = stands(&self.cursor, Mark::BraceClose);
        if !ends {
            return Err(refusal(&self.cursor));
        }
        Ok(part)
    }

    /// A divided body, behind the queries of its head, up to its last brace.
    fn divided(&mut self, queries: Queries) -> Result<Body, Stop>
        requires names { length self.old.names ≤ 32 }
        requires part { is_fixed Mark.Part (lead (text_of self.old.cursor)) ≡ true }
        ensures { ReadsDivided (text_of self.old.cursor) (text_of self.new.cursor) self.old.names queries result }
    {
        let mut names = mem::replace(&mut self.names, Names::new(self.alloc));
        let mut conds = Conds::new(self.alloc);
        let mut parts = self.blocks(&mut names, &mut conds)?;
        let rest = self.rest()?;
        parts.push(rest)?;
        let head = Head {
            names,
            queries,
            conds,
        };
        Ok(Body::Split { head, parts })
    }

    /// A body, up to its last brace.
    fn body(&mut self) -> Result<Body, Stop>
        requires { self.old.names ≡ [] }
        ensures { ReadsBody (text_of self.old.cursor) (text_of self.new.cursor) result }
    {
        let queries = self.queries()?;
        let divided = stands(&self.cursor, Mark::Part);
        if divided {
            return self.divided(queries);
        }
        let part = self.part(queries)?;
        Ok(Body::One(part))
    }

    /// A declaration, up to its last brace, behind those of a library.
    pub fn declaration(&mut self, earlier: &Library) -> Result<Decl, Stop>
        requires { self.old.names ≡ [] }
        ensures { ReadsDecl (decl_names earlier.now) (text_of self.old.cursor) (text_of self.new.cursor) result }
    {
        let beyond = excess(&self.cursor);
        expect(&mut self.cursor, Mark::Format)?;
        let count = earlier.count();
        if count >= 256 {
            return Err(beyond);
        }
        let repeated = Stop::Repeated(self.cursor.left());
        let name = name(&mut self.cursor)?;
        if earlier.has(&name) {
            return Err(repeated);
        }
        expect(&mut self.cursor, Mark::BraceOpen)?;
        let body = self.body()?;
        Ok(Decl { name, body })
    }
}

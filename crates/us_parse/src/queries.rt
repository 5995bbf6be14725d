//! Reading queries.

ghost use Rattle.std.specs.Prelude.{◌≡◌, ◌≤◌, true, false, length, [], IfOk, IfErr};
ghost use Rattle.us_parse.specs.Reads.{text_of, lead, is_fixed, refused_at, Took};
ghost use Rattle.us_parse.specs.ReadsQueries.{ReadsArgument, ReadsSingle, ReadsLanes, ReadsQuery, ReadsQueries, word_token_of, word_of, has_word, one_view};
ghost use Rattle.us_decl.specs.Views.{query_view};
ghost use Rattle.us_expr.specs.Tree.{tree};

use crate::reading::Reader;
use crate::stop::Stop;
use crate::tokens::{excess, expect, number, refusal, stands, take, variable};
use crate::word::Word;
use us_decl::{Lexeme, Mark, Queries};
use us_expr::{Expr, Query};
use us_tokens::{Cursor, Next};

/// The word of a query of one variable, which has to stand here.
fn word(cursor: &mut Cursor<'_, Lexeme>) -> Result<Word, Stop>
    ensures ok { IfOk result (λ w. Took (text_of cursor.old) (text_of cursor.new) (word_token_of (word_of w))) }
    ensures err { IfErr result (λ e. (e ≡ refused_at (text_of cursor.old)) × (has_word (lead (text_of cursor.old)) ≡ false)) }
{
    match cursor.peek() {
        Next::Token(Lexeme::Fixed(Mark::Sum)) => {
            cursor.advance();
            Ok(Word::Sum)
        }
        Next::Token(Lexeme::Fixed(Mark::Enumerate)) => {
            cursor.advance();
            Ok(Word::Enumerate)
        }
        Next::Token(Lexeme::Fixed(Mark::Reorder)) => {
            cursor.advance();
            Ok(Word::Reorder)
        }
        _ => Err(refusal(cursor)),
    }
}

fn query_of(word: Word, var: u32, arg: Expr) -> Query
    ensures { query_view result ≡ one_view (word_of word) var (tree arg) }
{
    match word {
        Word::Sum => Query::Sum { var, arg },
        Word::Enumerate => Query::Enumerate { var, arg },
        Word::Reorder => Query::Reorder { var, arg },
    }
}

impl Reader<'_> {
    /// The argument of a query in its parentheses.
    fn argument(&mut self) -> Result<Expr, Stop>
        requires { length self.old.names ≤ 32 }
        ensures { ReadsArgument (text_of self.old.cursor) (text_of self.new.cursor) self.old.names self.new.names result }
    {
        expect(&mut self.cursor, Mark::Open)?;
        let (argument, _) = self.expr(0, 0)?;
        expect(&mut self.cursor, Mark::Close)?;
        Ok(argument)
    }

    /// The rest of a query of one variable, behind that variable.
    fn single(&mut self, var: u32) -> Result<Query, Stop>
        requires names { length self.old.names ≤ 32 }
        requires comma { is_fixed Mark.Comma (lead (text_of self.old.cursor)) ≡ false }
        ensures { ReadsSingle (text_of self.old.cursor) (text_of self.new.cursor) var self.old.names self.new.names result }
    {
        expect(&mut self.cursor, Mark::Equal)?;
        let word = word(&mut self.cursor)?;
        let argument = self.argument()?;
        Ok(query_of(word, var, argument))
    }

    /// The rest of a schedule, behind its first variable and the comma.
    fn schedule(&mut self, lane: u32) -> Result<Query, Stop>
        requires names { length self.old.names ≤ 32 }
        ensures { ReadsLanes (text_of self.old.cursor) (text_of self.new.cursor) lane self.old.names self.new.names result }
    {
        let slot = variable(&mut self.cursor, &mut self.names)?;
        expect(&mut self.cursor, Mark::Equal)?;
        expect(&mut self.cursor, Mark::Schedule)?;
        let arg = self.argument()?;
        expect(&mut self.cursor, Mark::Into)?;
        let lanes = number(&mut self.cursor)?;
        Ok(Query::Schedule {
            lane,
            slot,
            arg,
            lanes,
        })
    }

    /// A query, behind its first word.
    fn query(&mut self) -> Result<Query, Stop>
        requires { length self.old.names ≤ 32 }
        ensures { ReadsQuery (text_of self.old.cursor) (text_of self.new.cursor) self.old.names self.new.names result }
    {
        let var = variable(&mut self.cursor, &mut self.names)?;
        if take(&mut self.cursor, Mark::Comma) {
            self.schedule(var)
        } else {
            self.single(var)
        }
    }

    /// The queries of a head or a part.
    pub fn queries(&mut self) -> Result<Queries, Stop>
        requires { self.old.names ≡ [] }
        ensures { ReadsQueries (text_of self.old.cursor) (text_of self.new.cursor) self.new.names result }
    {
        let mut queries = Queries::new(self.alloc);
        while stands(&self.cursor, Mark::Let) {
            let count = queries.len();
            if count >= 16 {
                return Err(excess(&self.cursor));
            }
            self.cursor.advance();
            let query = self.query()?;
            queries.push(query)?;
        }
        Ok(queries)
    }
}

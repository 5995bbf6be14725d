//! The tokens of declarations, as the lexer tells them.

ghost use Rattle.std.specs.Prelude.{◌≡◌};
ghost use Rattle.us_decl.specs.Names.{same_name};
ghost use Rattle.us_decl.specs.Words.{keyword, query_keyword};

use crate::mark::Mark;
use us_tokens::Kind;

/// What a token is: a word or symbol of the grammar, a name, or a number.
#[derive(Clone, Copy, Debug, PartialEq, Eq)]
pub enum Lexeme {
    Fixed(Mark),
    Name,
    Number(u32),
}

impl Kind for Lexeme {
    ghost use Rattle.us_decl.specs.Words.{language};

    ghost language = { language };

    fn word(text: &[u8]) -> Option<Lexeme> {
        match keyword(text) {
            Some(mark) => Some(Lexeme::Fixed(mark)),
            None => Some(Lexeme::Name),
        }
    }

    fn number(value: u64) -> Lexeme {
        Lexeme::Number(value as u32)
    }

    fn limit() -> u64 {
        2147483647
    }

    fn symbol(byte: u8) -> Option<Lexeme> {
        match byte {
            b'{' => Some(Lexeme::Fixed(Mark::BraceOpen)),
            b'}' => Some(Lexeme::Fixed(Mark::BraceClose)),
            b'(' => Some(Lexeme::Fixed(Mark::Open)),
            b')' => Some(Lexeme::Fixed(Mark::Close)),
            b',' => Some(Lexeme::Fixed(Mark::Comma)),
            b'=' => Some(Lexeme::Fixed(Mark::Equal)),
            b'+' => Some(Lexeme::Fixed(Mark::Plus)),
            b'-' => Some(Lexeme::Fixed(Mark::Minus)),
            b'/' => Some(Lexeme::Fixed(Mark::Slash)),
            b'%' => Some(Lexeme::Fixed(Mark::Percent)),
            b'<' => Some(Lexeme::Fixed(Mark::Less)),
            _ => None,
        }
    }

    fn pair(first: u8, second: u8) -> Option<Lexeme> {
        if first == b'>' && second == b'=' {
            Some(Lexeme::Fixed(Mark::AtLeast))
        } else {
            None
        }
    }
}

/// Whether two names are the same.
pub fn is_same_name(word: &[u8], name: &[u8]) -> bool
    ensures { result ≡ same_name word.now name.now }
{
    word == name
}

/// The word of the grammar that these bytes are.
pub fn keyword(word: &[u8]) -> Option<Mark>
    ensures { result ≡ keyword word.now }
{
    if is_same_name(word, b"format") {
        Some(Mark::Format)
    } else if is_same_name(word, b"part") {
        Some(Mark::Part)
    } else if is_same_name(word, b"when") {
        Some(Mark::When)
    } else if is_same_name(word, b"rest") {
        Some(Mark::Rest)
    } else if is_same_name(word, b"let") {
        Some(Mark::Let)
    } else if is_same_name(word, b"map") {
        Some(Mark::Map)
    } else if is_same_name(word, b"trim") {
        Some(Mark::Trim)
    } else if is_same_name(word, b"merge") {
        Some(Mark::Merge)
    } else if is_same_name(word, b"pack") {
        Some(Mark::Pack)
    } else {
        query_keyword(word)
    }
}

/// The word of a query, a column or an index that these bytes are.
fn query_keyword(word: &[u8]) -> Option<Mark>
    ensures { result ≡ query_keyword word.now }
{
    if is_same_name(word, b"sum") {
        Some(Mark::Sum)
    } else if is_same_name(word, b"enumerate") {
        Some(Mark::Enumerate)
    } else if is_same_name(word, b"reorder") {
        Some(Mark::Reorder)
    } else if is_same_name(word, b"schedule") {
        Some(Mark::Schedule)
    } else if is_same_name(word, b"into") {
        Some(Mark::Into)
    } else if is_same_name(word, b"val") {
        Some(Mark::Val)
    } else if is_same_name(word, b"i") {
        Some(Mark::I)
    } else if is_same_name(word, b"j") {
        Some(Mark::J)
    } else if is_same_name(word, b"mtx") {
        Some(Mark::Mtx)
    } else {
        None
    }
}

//! The tokens of loop code, as the lexer tells them.

ghost use Rattle.std.specs.Prelude.{◌≡◌, ◌<◌, ◌^◌};
ghost use Rattle.std.specs.List.{prefix_len};
ghost use Rattle.us_tokens.specs.Lex.{is_digit, capped_value};
ghost use Rattle.us_code_table.specs.Words.{same_word, phase_word, statement_word, keyword, every_digit, begins_with_zero, is_numeral, lettered, length_name, name};

use crate::mark::Mark;
use us_tokens::Kind;

/// What a token is: a word or symbol of the grammar, a name by its number, or a
/// number. The number of a name stops at 2^32, which is above the limit.
#[derive(Clone, Copy, Debug, PartialEq, Eq)]
pub enum Lexeme {
    Fixed(Mark),
    Register(u64),
    Buffer(u64),
    DimName(u64),
    Source(u64),
    Length(u64),
    Number(u64),
}

impl Kind for Lexeme {
    ghost use Rattle.us_code_table.specs.Words.{language};

    ghost language = { language };

    fn word(text: &[u8]) -> Option<Lexeme> {
        match keyword(text) {
            Some(mark) => Some(Lexeme::Fixed(mark)),
            None => name(text),
        }
    }

    fn number(value: u64) -> Lexeme {
        Lexeme::Number(value)
    }

    fn limit() -> u64 {
        9223372036854775807
    }

    fn symbol(byte: u8) -> Option<Lexeme> {
        match byte {
            b'{' => Some(Lexeme::Fixed(Mark::BraceOpen)),
            b'}' => Some(Lexeme::Fixed(Mark::BraceClose)),
            b'(' => Some(Lexeme::Fixed(Mark::Open)),
            b')' => Some(Lexeme::Fixed(Mark::Close)),
            b'[' => Some(Lexeme::Fixed(Mark::BracketOpen)),
            b']' => Some(Lexeme::Fixed(Mark::BracketClose)),
            b',' => Some(Lexeme::Fixed(Mark::Comma)),
            b'=' => Some(Lexeme::Fixed(Mark::Equal)),
            b'+' => Some(Lexeme::Fixed(Mark::Plus)),
            b'-' => Some(Lexeme::Fixed(Mark::Minus)),
            b'*' => Some(Lexeme::Fixed(Mark::Star)),
            b'/' => Some(Lexeme::Fixed(Mark::Slash)),
            b'%' => Some(Lexeme::Fixed(Mark::Percent)),
            b'<' => Some(Lexeme::Fixed(Mark::Less)),
            _ => None,
        }
    }

    fn pair(first: u8, second: u8) -> Option<Lexeme> {
        if first == b'=' && second == b'=' {
            Some(Lexeme::Fixed(Mark::Same))
        } else {
            None
        }
    }
}

fn is_same_word(word: &[u8], other: &[u8]) -> bool
    ensures { result ≡ same_word word.now other.now }
{
    word == other
}

/// The word of the grammar that these bytes are.
fn keyword(word: &[u8]) -> Option<Mark>
    ensures { result ≡ keyword word.now }
{
    if is_same_word(word, b"size") {
        Some(Mark::Size)
    } else if is_same_word(word, b"flat") {
        Some(Mark::Flat)
    } else if is_same_word(word, b"next") {
        Some(Mark::Next)
    } else if is_same_word(word, b"up") {
        Some(Mark::Up)
    } else {
        match statement_word(word) {
            Some(mark) => Some(mark),
            None => phase_word(word),
        }
    }
}

/// The word of a statement that these bytes are.
fn statement_word(word: &[u8]) -> Option<Mark>
    ensures { result ≡ statement_word word.now }
{
    if is_same_word(word, b"let") {
        Some(Mark::Let)
    } else if is_same_word(word, b"var") {
        Some(Mark::Var)
    } else if is_same_word(word, b"put") {
        Some(Mark::Put)
    } else if is_same_word(word, b"set") {
        Some(Mark::Set)
    } else if is_same_word(word, b"for") {
        Some(Mark::For)
    } else if is_same_word(word, b"in") {
        Some(Mark::In)
    } else if is_same_word(word, b"to") {
        Some(Mark::To)
    } else if is_same_word(word, b"if") {
        Some(Mark::If)
    } else if is_same_word(word, b"else") {
        Some(Mark::Else)
    } else if is_same_word(word, b"when") {
        Some(Mark::When)
    } else if is_same_word(word, b"as") {
        Some(Mark::As)
    } else if is_same_word(word, b"order") {
        Some(Mark::Order)
    } else if is_same_word(word, b"by") {
        Some(Mark::By)
    } else {
        None
    }
}

/// The word of a phase that these bytes are.
fn phase_word(word: &[u8]) -> Option<Mark>
    ensures { result ≡ phase_word word.now }
{
    if is_same_word(word, b"code") {
        Some(Mark::Code)
    } else if is_same_word(word, b"phase") {
        Some(Mark::Phase)
    } else if is_same_word(word, b"new") {
        Some(Mark::New)
    } else if is_same_word(word, b"word") {
        Some(Mark::Word)
    } else if is_same_word(word, b"below") {
        Some(Mark::Below)
    } else if is_same_word(word, b"do") {
        Some(Mark::Do)
    } else if is_same_word(word, b"dim") {
        Some(Mark::Dim)
    } else if is_same_word(word, b"of") {
        Some(Mark::Of)
    } else if is_same_word(word, b"give") {
        Some(Mark::Give)
    } else {
        None
    }
}

fn is_digit_byte(byte: u8) -> bool
    ensures { result ≡ is_digit byte }
{
    byte >= b'0' && byte <= b'9'
}

fn digits_len(bytes: &[u8]) -> usize
    ensures { result ≡ prefix_len is_digit bytes.now }
{
    bytes.iter().take_while(|b| is_digit_byte(**b)).count()
}

fn is_every_digit(bytes: &[u8]) -> bool
    ensures { result ≡ every_digit bytes.now }
{
    digits_len(bytes) == bytes.len()
}

fn is_zero_first(bytes: &[u8]) -> bool
    ensures { result ≡ begins_with_zero bytes.now }
{
    match bytes {
        [first, ..] => *first == b'0',
        [] => false,
    }
}

/// Whether these bytes are the number of a name: digits, and no zero in front of
/// others.
fn is_numeral(bytes: &[u8]) -> bool
    ensures { result ≡ is_numeral bytes.now }
{
    bytes.len() > 0 && is_every_digit(bytes) && (bytes.len() == 1 || !is_zero_first(bytes))
}

/// The value of decimal digits, or 2^32 if it is above that.
fn value_of(digits: &[u8]) -> u64
    ensures { result ≡ capped_value 4294967295 digits.now }
{
    let mut value: u64 = 0;
    for digit in digits {
        let grown = value
            .saturating_mul(10)
            .saturating_add(digit.saturating_sub(b'0') as u64);
        value = grown.min(4294967296);
    }
    value
}

/// The name of a letter and a number.
fn lettered(letter: u8, number: u64) -> Option<Lexeme>
    ensures { result ≡ lettered letter number }
{
    match letter {
        b'r' => Some(Lexeme::Register(number)),
        b'b' => Some(Lexeme::Buffer(number)),
        b'd' => Some(Lexeme::DimName(number)),
        b's' => Some(Lexeme::Source(number)),
        _ => None,
    }
}

/// The name of the length of a source, of the bytes behind its first letter.
fn length_name(bytes: &[u8]) -> Option<Lexeme>
    ensures { result ≡ length_name bytes.now }
{
    match bytes {
        [second, third, digits @ ..] => {
            if *second == b'e' && *third == b'n' && is_numeral(digits) {
                Some(Lexeme::Length(value_of(digits)))
            } else {
                None
            }
        }
        _ => None,
    }
}

/// The name that these bytes are.
fn name(bytes: &[u8]) -> Option<Lexeme>
    ensures { result ≡ name bytes.now }
{
    match bytes {
        [letter, digits @ ..] => {
            if is_numeral(digits) {
                lettered(*letter, value_of(digits))
            } else if *letter == b'l' {
                length_name(digits)
            } else {
                None
            }
        }
        [] => None,
    }
}

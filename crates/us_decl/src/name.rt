//! Names of declarations and of variables.

ghost use Rattle.std.specs.Prelude.{◌≡◌, false, true, MatchOption};
ghost use Rattle.std.specs.List.{prefix_len};
ghost use Rattle.us_tokens.specs.Lex.{first_is, is_letter, is_word};
ghost use Rattle.us_decl.specs.Words.{is_name, every};

use crate::lexeme::keyword;
use arrayvec::ArrayString;
use std::marker::Model;
use std::str;

/// A name: a letter or `_`, then letters, digits and `_`, of 1 to 32 bytes, and no word of the grammar.
#[derive(Debug, Drop)]
pub struct Name {
    text: ArrayString<32>,
}

impl Model for Name {
    ghost use Rattle.std.specs.Prelude.{List, ℕ};

    ghost Value = { List ℕ };

    ghost view = { λ n. n.text.bytes };
}

impl Name {
    /// The name that a text is, if it is one.
    #[tactic(auto, using(crate::proofs::Deciding::long_is_no_name))]
    pub fn new(text: &str) -> Option<Name>
        ensures { MatchOption result (is_name text.now ≡ false) (λ n. (n ≡ text.now) × (is_name text.now ≡ true)) }
    {
        let Ok(copy) = ArrayString::from(text) else {
            return None;
        };
        if is_name(text.as_bytes()) {
            Some(Name { text: copy })
        } else {
            None
        }
    }

    /// The text of the name.
    pub fn as_str(&self) -> &str
        ensures { result.now ≡ self.now }
    {
        self.text.as_str()
    }

    /// The same name.
    pub fn copy(&self) -> Name
        ensures { result ≡ self.now }
    {
        Name { text: self.text }
    }
}

fn begins_with_letter(bytes: &[u8]) -> bool
    ensures { result ≡ first_is is_letter bytes.now }
{
    match bytes {
        [first, ..] => is_letter_byte(*first),
        [] => false,
    }
}

fn is_letter_byte(byte: u8) -> bool
    ensures { result ≡ is_letter byte }
{
    (byte >= b'A' && byte <= b'Z') || (byte >= b'a' && byte <= b'z') || byte == b'_'
}

fn is_word_byte(byte: u8) -> bool
    ensures { result ≡ is_word byte }
{
    is_letter_byte(byte) || (byte >= b'0' && byte <= b'9')
}

fn word_len(bytes: &[u8]) -> usize
    ensures { result ≡ prefix_len is_word bytes.now }
{
    bytes.iter().take_while(|b| is_word_byte(**b)).count()
}

fn is_word(bytes: &[u8]) -> bool
    ensures { result ≡ every is_word bytes.now }
{
    word_len(bytes) == bytes.len()
}

/// The name that these bytes are, if they are one.
#[tactic(auto, using(crate::proofs::Deciding::no_text_no_name))]
pub fn name_of(bytes: &[u8]) -> Option<Name>
    ensures { MatchOption result (is_name bytes.now ≡ false) (λ n. (n ≡ bytes.now) × (is_name bytes.now ≡ true)) }
{
    match str::from_utf8(bytes) {
        Ok(text) => Name::new(text),
        Err(_) => None,
    }
}

/// Whether these bytes are a name.
pub fn is_name(bytes: &[u8]) -> bool
    ensures { result ≡ is_name bytes.now }
{
    begins_with_letter(bytes) && is_word(bytes) && keyword(bytes).is_none() && bytes.len() <= 32
}

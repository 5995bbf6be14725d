//! Blanks and comments, and the token behind them.

ghost use Rattle.std.specs.Prelude.{◌≡◌, ◌≤◌, ◌∷◌, List, length, false, true};
ghost use Rattle.us_tokens.specs.Lex.{lexed, Between, Comment, first_is, is_gap, is_letter, is_digit, begins};
ghost use Rattle.us_tokens.specs.Front.{standing, pair_at};

use crate::bytes::{
    digits_len, is_blank_byte, is_digit_byte, is_letter_byte, split, value_of, word_len,
};
use crate::kind::Kind;

/// The bytes behind the line of a comment.
#[tactic(auto, unfolding(crate::specs::Lex::lexed))]
fn line_end<K: Kind>(bytes: &[u8]) -> &[u8]
    ensures same { lexed K.language bytes.now Comment ≡ lexed K.language result.now Between }
    ensures shorter { length result.now ≤ length bytes.now }
{
    let mut rest = bytes;
    while let Some((first, after)) = split(rest) {
        rest = after;
        if first == b'\n' {
            return rest;
        }
    }
    rest
}

/// The bytes behind blanks and comments.
#[tactic(auto, unfolding(crate::specs::Lex::lexed))]
pub fn skip<K: Kind>(bytes: &[u8]) -> &[u8]
    ensures same { lexed K.language bytes.now Between ≡ lexed K.language result.now Between }
    ensures shorter { length result.now ≤ length bytes.now }
    ensures stops { first_is is_gap result.now ≡ false }
{
    let mut rest = bytes;
    while let Some((first, after)) = split(rest) {
        if is_blank_byte(first) {
            rest = after;
        } else if first == b'#' {
            rest = line_end::<K>(after);
        } else {
            return rest;
        }
    }
    rest
}

/// A word at the front, and how many bytes it has.
fn word_front<K: Kind>(bytes: &[u8]) -> (Option<K>, usize)
    requires gap { first_is is_gap bytes.now ≡ false }
    requires word { first_is is_letter bytes.now ≡ true }
    ensures token { standing K.language result.0 bytes.now result.1 ≡ lexed K.language bytes.now Between }
    ensures within { result.1 ≤ length bytes.now }
{
    let len = word_len(bytes);
    (K::word(&bytes[..len]), len)
}

/// A number at the front, and how many bytes it has.
fn number_front<K: Kind>(bytes: &[u8]) -> (Option<K>, usize)
    requires gap { first_is is_gap bytes.now ≡ false }
    requires word { first_is is_letter bytes.now ≡ false }
    requires digit { first_is is_digit bytes.now ≡ true }
    ensures token { standing K.language result.0 bytes.now result.1 ≡ lexed K.language bytes.now Between }
    ensures within { result.1 ≤ length bytes.now }
{
    let len = digits_len(bytes);
    (Some(K::number(value_of(&bytes[..len], K::limit()))), len)
}

/// The symbol of two bytes that begins with a byte in front of others.
fn pair_front<K: Kind>(first: u8, behind: &[u8]) -> Option<K>
    ensures { result ≡ pair_at K.language first behind.now }
{
    let (second, _) = split(behind)?;
    K::pair(first, second)
}

/// A symbol that begins with a byte in front of others, and how many bytes it
/// has.
fn symbol_front<K: Kind>(first: u8, behind: &[u8]) -> (Option<K>, usize)
    requires gap { is_gap first ≡ false }
    requires word { is_letter first ≡ false }
    requires digit { is_digit first ≡ false }
    ensures token { standing K.language result.0 (first ∷ behind.now) result.1 ≡ lexed K.language (first ∷ behind.now) Between }
    ensures within { result.1 ≤ length (first ∷ behind.now) }
{
    match pair_front(first, behind) {
        Some(kind) => (Some(kind), 2),
        None => (K::symbol(first), 1),
    }
}

/// The token at the front, and how many bytes it has.
pub fn front<K: Kind>(bytes: &[u8]) -> (Option<K>, usize)
    requires gap { first_is is_gap bytes.now ≡ false }
    ensures token { standing K.language result.0 bytes.now result.1 ≡ lexed K.language bytes.now Between }
    ensures within { result.1 ≤ length bytes.now }
{
    match split(bytes) {
        None => (None, 0),
        Some((first, _)) if is_letter_byte(first) => word_front(bytes),
        Some((first, _)) if is_digit_byte(first) => number_front(bytes),
        Some((first, behind)) => symbol_front(first, behind),
    }
}

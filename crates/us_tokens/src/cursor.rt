//! A place in a text, with the token that stands there.

ghost use Rattle.std.specs.Prelude.{◌≡◌, ◌≤◌, length};

use crate::front::{front, skip};
use crate::kind::Kind;
use crate::next::Next;

/// A place in a text, with the token that stands there, so that no token is
/// read twice. No byte behind the token is looked at, but for the one that
/// ends it.
#[derive(Drop)]
pub struct Cursor<'a, K> {
    kind: Option<K>,
    at: &'a [u8],
    len: usize,
    ghost within: { len ≤ length at.now },
}

impl<'a, K: Kind> Cursor<'a, K> {
    ghost use Rattle.std.specs.Prelude.{◌≡◌, ℕ, List};
    ghost use Rattle.us_tokens.specs.Text.{left_of, bytes_of, behind_of, after};
    ghost use Rattle.us_tokens.specs.Lex.{lexed, Between};
    ghost use Rattle.us_tokens.specs.Front.{Tells};
    ghost use Rattle.us_tokens.specs.Cursor.{ahead};

    /// At the first token of a text.
    pub fn new(bytes: &'a [u8]) -> Self
        ensures { ahead K.language result ≡ lexed K.language bytes.now Between }
    {
        let at = skip::<K>(bytes);
        let (kind, len) = front(at);
        Cursor { kind, at, len }
    }

    /// What stands here.
    pub fn peek(&self) -> Next<K>
        ensures { Tells (ahead K.language self.now) result }
    {
        match self.kind {
            Some(kind) => Next::Token(kind),
            None if self.at.is_empty() => Next::End,
            None => Next::Bad,
        }
    }

    /// How many bytes are left here: at the first byte of the token, at the
    /// byte that begins none, or 0 at the end.
    pub fn left(&self) -> usize
        ensures { result ≡ left_of (ahead K.language self.now) }
    {
        self.at.len()
    }

    /// How many bytes are left behind the token. At the end, and at a byte that
    /// begins no token, it is how many are left here.
    pub fn behind(&self) -> usize
        ensures { result ≡ behind_of (ahead K.language self.now) }
    {
        if self.kind.is_some() {
            self.at.len() - self.len
        } else {
            self.at.len()
        }
    }

    /// The bytes of the token, or none where none stands.
    pub fn text(&self) -> &'a [u8]
        ensures { result.now ≡ bytes_of (ahead K.language self.now) }
    {
        if self.kind.is_some() {
            &self.at[..self.len]
        } else {
            &[]
        }
    }

    /// Goes on to the next token. At the end, and at a byte that begins no
    /// token, it stays.
    pub fn advance(&mut self)
        ensures { ahead K.language self.new ≡ after (ahead K.language self.old) }
    {
        if self.kind.is_some() {
            let (_, rest) = self.at.split_at(self.len);
            *self = Cursor::new(rest);
        }
    }
}

//! What stands at a place of a text.

/// A token of some kind, a byte that begins none, or the end.
#[derive(Clone, Copy, Debug, PartialEq, Eq)]
pub enum Next<K> {
    End,
    Bad,
    Token(K),
}

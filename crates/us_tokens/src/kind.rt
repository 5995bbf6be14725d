//! What a language's tokens are.

ghost use Rattle.std.specs.Prelude.{◌≡◌, ◌+◌, ◌^◌, ◌<◌, ◌≤◌};
ghost use Rattle.us_tokens.specs.Lex.{Language};

/// The kinds of token of a language. The type itself is the language: it says
/// which words and symbols are tokens, and of which kind.
pub trait Kind: Copy {
    ghost language: { Language Self };

    /// The kind of a word: a letter or `_`, and then letters, digits and `_`.
    fn word(text: &[u8]) -> Option<Self>
        ensures { result ≡ language.word text.now };

    /// The kind of a number. One above the limit comes as the limit and one.
    fn number(value: u64) -> Self
        requires { value ≤ language.limit + 1 }
        ensures { result ≡ language.number value };

    /// The greatest number of the language.
    fn limit() -> u64
        ensures value { result ≡ language.limit }
        ensures small { result < 2 ^ 63 };

    /// The kind of a symbol of one byte.
    fn symbol(byte: u8) -> Option<Self>
        ensures { result ≡ language.symbol byte };

    /// The kind of a symbol of two bytes. It is taken before one of its first byte alone.
    fn pair(first: u8, second: u8) -> Option<Self>
        ensures { result ≡ language.pair first second };
}

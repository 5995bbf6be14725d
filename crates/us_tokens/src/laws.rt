//! Laws of texts and of reading them.

ghost use Rattle.std.specs.Prelude.{◌≡◌, ◌≤◌, ◌<◌, ◌^◌, ◌++◌, ℕ, List, Some, false, true, length};
ghost use Rattle.std.specs.Fmt.{decimal};
ghost use Rattle.std.specs.List.{list_all};
ghost use Rattle.us_tokens.specs.Text.{Text, Then};
ghost use Rattle.us_tokens.specs.Lex.{lexed, Between, first_is, is_word, is_letter, is_digit};
ghost use Rattle.us_tokens.specs.Places.{IsPlaced};
ghost use Rattle.us_tokens.specs.Reading.{Machine, IsHeld, Means, scan};

use crate::kind::Kind;

/// Each token stands at its place in the bytes, one after the other.
pub fn places_law<K: Kind>()
    ensures { (bytes : List ℕ) → IsPlaced bytes (lexed K.language bytes Between) }
{}

/// The decimal digits of a number are read as that number, whatever follows
/// that is no digit.
pub fn number_law<K: Kind>()
    ensures { (n : ℕ) (rest : List ℕ) → n < 2 ^ 64 → n ≤ K.language.limit → first_is is_digit rest ≡ false
        → lexed K.language (decimal n ++ rest) Between ≡ Then (K.language.number n) (decimal n) (length rest) (lexed K.language rest Between) }
{}

/// A word of the language is read as that word, whatever follows that goes on
/// no word.
pub fn word_law<K: Kind>()
    ensures { (w rest : List ℕ) (k : K) → first_is is_letter w ≡ true → list_all is_word w ≡ true → K.language.word w ≡ Some k → first_is is_word rest ≡ false
        → lexed K.language (w ++ rest) Between ≡ Then k w (length rest) (lexed K.language rest Between) }
{}

/// What the answer of a reading means, for each machine that is held to its
/// grammar, and no two texts have the same tokens.
pub fn reading_law<K: Drop, T: Drop, S: Drop, D: Drop, F: Drop>()
    ensures means { (m : Machine K T S D F) → IsHeld m → (all : Text K) → Means m all (scan m all m.start) }
    ensures one { (m : Machine K T S D F) → IsHeld m → (a b : D) → m.tokens a ≡ m.tokens b → a ≡ b }
{}

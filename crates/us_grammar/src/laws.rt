//! Laws of reading by a grammar whose table passes its tests.

ghost use Rattle.std.specs.Prelude.{◌≡◌, ◌∷◌, [], ℕ, List, None, true, length};
ghost use Rattle.us_tokens.specs.Text.{Text};
ghost use Rattle.us_grammar.specs.Grammar.{Grammar, IsTable, Part, Spells, all_closed};
ghost use Rattle.us_grammar.specs.Reading.{Keeps, Lexeme, Limits, Means, Read, answer, behind_last, put, tokens_of};

/// A language with its grammar.
pub trait Table {
    ghost Part: { Type 0 };

    ghost Class: { Type 0 };

    ghost Token: { Type 0 };

    ghost Note: { Type 0 };

    /// Its parts, the classes of its tokens, and what its limits count.
    ghost grammar: { Grammar Part Class Token Note };
}

/// What the answer of a reading means, for each grammar that passes the tests
/// of a table and all limits, and each text has one value.
pub fn reading_law<G: Table, K: Drop, S: Drop, F: Drop>()
    ensures means { IsTable G.grammar → (limits : Limits K G.Token G.Note S F) (n : G.Part) (all : Text K) → Means G.grammar limits n all (answer G.grammar limits n all) }
    ensures one { IsTable G.grammar → (n : G.Part) (ts : List G.Token) (v w : G.grammar.Value n) → Spells G.grammar ts (Part n ∷ []) (v, tt) → Spells G.grammar ts (Part n ∷ []) (w, tt) → v ≡ w }
{}

/// A text of a part that ends with a terminal, within the limits, is read as
/// its value, whatever follows it.
pub fn reading_back_law<G: Table, K: Drop, S: Drop, F: Drop>()
    ensures { IsTable G.grammar → (limits : Limits K G.Token G.Note S F) (n : G.Part) (x : Lexeme K) (xs : List (Lexeme K)) (rest : Text K) (v : G.grammar.Value n)
        → all_closed G.grammar (G.grammar.choices n) ≡ true → G.grammar.empty n ≡ None → Spells G.grammar (tokens_of G.grammar limits (x ∷ xs)) (Part n ∷ []) (v, tt)
        → Keeps G.grammar limits n (tokens_of G.grammar limits (x ∷ xs)) → answer G.grammar limits n (put (x ∷ xs) rest) ≡ Read v (behind_last x xs) rest }
{}

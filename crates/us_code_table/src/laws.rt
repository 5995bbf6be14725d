//! Laws of the texts of loop code.

ghost use Rattle.std.specs.Prelude.{◌≡◌, ◌∷◌, [], List};
ghost use Rattle.us_tokens.specs.Text.{Text};
ghost use Rattle.us_grammar.specs.Grammar.{Part, Spells};
ghost use Rattle.us_grammar.specs.Reading.{Keeps, Means, Read, answer, behind_last, put, tokens_of};
ghost use Rattle.us_grammar.specs.Reading.{Lexeme as Placed};
ghost use Rattle.us_code.specs.Plain.{ProgramTree};
ghost use Rattle.us_code_table.specs.Table.{Token, Whole, grammar};
ghost use Rattle.us_code_table.specs.Limits.{limits};
ghost use Rattle.us_code_table.specs.declared.lexeme.Lexeme.{Lexeme};

/// What the answer of reading a program means: a program that the tokens up to
/// its last brace spell, or the first fault, behind tokens that begin a program.
pub fn answers_mean()
    ensures { (all : Text Lexeme) → Means grammar limits Whole all (answer grammar limits Whole all) }
{}

/// The tokens of a text spell one program.
pub fn one_program()
    ensures { (ts : List Token) (p q : ProgramTree) → Spells grammar ts (Part Whole ∷ []) (p, tt) → Spells grammar ts (Part Whole ∷ []) (q, tt) → p ≡ q }
{}

/// A text of a program within the limits is read as that program, whatever
/// follows it.
pub fn text_reads_back()
    ensures { (x : Placed Lexeme) (xs : List (Placed Lexeme)) (rest : Text Lexeme) (p : ProgramTree)
        → Spells grammar (tokens_of grammar limits (x ∷ xs)) (Part Whole ∷ []) (p, tt) → Keeps grammar limits Whole (tokens_of grammar limits (x ∷ xs))
        → answer grammar limits Whole (put (x ∷ xs) rest) ≡ Read p (behind_last x xs) rest }
{}

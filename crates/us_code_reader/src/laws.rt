//! A law of parsing.

ghost use Rattle.std.specs.Prelude.{◌≡◌, ◌++◌, ℕ, List, Result, length};
ghost use Rattle.us_tokens.specs.Text.{Text};
ghost use Rattle.us_grammar.specs.Reading.{Read};
ghost use Rattle.us_code.specs.Plain.{ProgramTree};
ghost use Rattle.us_code_table.specs.declared.lexeme.Lexeme.{Lexeme};
ghost use Rattle.us_code_reader.specs.declared.parsed.OneProgram.{OneProgram};
ghost use Rattle.us_code_reader.specs.declared.parsed.CodeFault.{CodeFault};
ghost use Rattle.us_code_reader.specs.Parses.{IsParsedAs, Parses, answer_on};

/// Where a text reads as a program, by the grammar, parsing gives that program wherever the text stands, and the
/// place behind it; or there is no memory.
pub fn read_text_is_parsed()
    ensures { (before text : List ℕ) (program : ProgramTree) (behind : ℕ) (more : Text Lexeme) (result : Result OneProgram CodeFault)
        → answer_on text ≡ Read program behind more → Parses (before ++ text) (length before) result → IsParsedAs program (length (before ++ text)) behind result }
{}

//! Laws of the printer and the reader of loop code together.
#![tactic(auto)]

ghost use Rattle.std.specs.Prelude.{◌≡◌, ◌++◌, ℕ, List, Result, Ok, length};
ghost use Rattle.us_tokens.specs.Text.{Text};
ghost use Rattle.us_grammar.specs.Reading.{Read, answer};
ghost use Rattle.us_code.specs.Limits.{KeepsLimits};
ghost use Rattle.us_code.specs.Plain.{ProgramTree, program_tree};
ghost use Rattle.us_code_table.specs.declared.lexeme.Lexeme.{Lexeme};
ghost use Rattle.us_code_table.specs.Limits.{limits};
ghost use Rattle.us_code_table.specs.Table.{Whole, grammar};
ghost use Rattle.us_code_print.specs.Canon.{code_text};
ghost use Rattle.us_code_print.specs.ReadBack.{IsNamed};
ghost use Rattle.us_code_reader.specs.declared.parsed.CodeFault.{CodeFault};
ghost use Rattle.us_code_reader.specs.declared.parsed.OneProgram.{OneProgram};
ghost use Rattle.us_code_reader.specs.Parses.{IsParsedAs, Parses};

/// The canonical text of a program within the limits is parsed as that program, wherever it stands and whatever
/// bytes follow; or there is no memory. The end is right behind the last brace, one byte before the text's own end.
pub fn printed_program_is_parsed()
    ensures { (before more : List ℕ) (program : ProgramTree) (result : Result OneProgram CodeFault) → KeepsLimits program → IsNamed program
        → Parses (before ++ (code_text program ++ more)) (length before) result → IsParsedAs program (length (before ++ code_text program)) 1 result }
{}

/// What reads as a program by the grammar, in any spelling, keeps the limits.
pub fn read_programs_keep_limits()
    ensures { (all : Text Lexeme) (program : ProgramTree) (behind : ℕ) (more : Text Lexeme)
        → answer grammar limits Whole all ≡ Read program behind more → KeepsLimits program × IsNamed program }
{}

/// What was parsed, in any spelling, keeps the limits. So it can be verified and printed.
pub fn parsed_program_keeps_limits()
    ensures { (bytes : List ℕ) (from : ℕ) (one : OneProgram) → Parses bytes from (Ok one)
        → KeepsLimits (program_tree one.program) × IsNamed (program_tree one.program) }
{}

/// What was parsed, in any spelling, is parsed again from its canonical text.
pub fn parsed_program_prints_back()
    ensures { (bytes : List ℕ) (from : ℕ) (one : OneProgram) (before more : List ℕ) (result : Result OneProgram CodeFault) → Parses bytes from (Ok one)
        → Parses (before ++ (code_text (program_tree one.program) ++ more)) (length before) result
        → IsParsedAs (program_tree one.program) (length (before ++ code_text (program_tree one.program))) 1 result }
{}

//! Laws of reading, each on a function without code.

ghost use Rattle.us_parse.specs.Laws.{ReadingLaw, LibraryLaw, SpellingLaw, LibrarySpellingLaw, PieceLaw};

/// What is read of a declaration is spelled so and keeps the limits, and each fault is the first.
pub fn answers_mean()
    ensures { ReadingLaw }
{}

/// The same of a library.
pub fn library_answers_mean()
    ensures { LibraryLaw }
{}

/// No two declarations have one spelling.
pub fn one_declaration()
    ensures { SpellingLaw }
{}

/// No two libraries have one spelling.
pub fn one_library()
    ensures { LibrarySpellingLaw }
{}

/// What has been read so far spells the tokens that were read.
pub fn pieces_spell()
    ensures { PieceLaw }
{}

//! Laws: printing and reading are inverse to each other.

ghost use Rattle.us_code_print.specs.ReadBack.{CanonLaw, ReadBackLaw};

/// Reading the canonical text of a program within the limits gives the program
/// back, and ends behind its last brace, whatever bytes follow.
pub fn canonical_text_reads_back()
    ensures { ReadBackLaw }
{}

/// Two programs within the limits have two canonical texts.
pub fn canonical_texts_differ()
    ensures { CanonLaw }
{}

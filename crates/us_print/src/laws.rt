//! Laws: printing and reading are inverse to each other.

ghost use Rattle.us_print.specs.ReadBack.{ReadBackLaw, CanonLaw, ParseBackLaw};

/// Reading the canonical text of a valid declaration gives the declaration
/// back, and ends behind its last brace, whatever bytes follow.
pub fn canonical_text_reads_back()
    ensures { ReadBackLaw }
{}

/// Two valid declarations have two canonical texts.
pub fn canonical_texts_differ()
    ensures { CanonLaw }
{}

/// `parse_one` gives the declaration that was printed back, and the place behind
/// its last brace, whatever bytes stand before and behind its text.
pub fn parse_one_reads_back()
    ensures { ParseBackLaw }
{}

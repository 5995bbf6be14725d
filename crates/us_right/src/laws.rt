//! The laws.
ghost use Rattle.us_right.specs.Laws.{AllPartsAreRight, ListingStarts, PartsAdd};

/// The phases that list the entries of a format's buffers are a program that builds no part yet.
pub fn listing_starts()
    ensures { ListingStarts }
{}

/// A program that builds some parts of a format, and behind it the phases of the next part, builds one part more.
/// Phases that don't put entries in order want one part each, without queries, and the same levels.
pub fn parts_add()
    ensures { PartsAdd }
{}

/// A program that builds all parts of a format gives its buffers for every matrix whose two sizes are within the limit, in at
/// most 256 · U · (both sizes + entries + 1 + W) steps: U is 2 and the levels and queries of both formats, and W adds for
/// each schedule one more than its lanes for each row and column. It is typed, and its text keeps the limits. Where no
/// phase puts entries in order, it has no `order`.
pub fn all_parts_are_right()
    ensures { AllPartsAreRight }
{}

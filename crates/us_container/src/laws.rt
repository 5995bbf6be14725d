//! Laws of containers.
ghost use Rattle.us_container.specs.Laws.{OnlySpelling, ReadsBack};

/// The bytes that hold something are the container of what they hold, so each held value has one spelling.
pub fn only_that_spelling()
    ensures { OnlySpelling }
{}

/// A container that was written reads back.
pub fn written_reads_back()
    ensures { ReadsBack }
{}

//! The laws.
ghost use Rattle.us_running.specs.Laws.{NumbersAreSmall, AllAreNumbered, MarksFillUp, MarksAreWritten, CellsAreSet, CellsFollowEntries};

/// After an entry the running number is at least 1 and at most the number of entries.
pub fn numbers_are_small()
    ensures { NumbersAreSmall }
{}

/// Where each entry is new, the running number is the number of entries.
pub fn all_are_numbered()
    ensures { AllAreNumbered }
{}

/// Where the places don't fall, the greatest mark up to a cell is how many new entries stand below it.
pub fn marks_fill_up()
    ensures { MarksFillUp }
{}

/// New entries that write their running number behind their place leave the marks.
pub fn marks_are_written()
    ensures { MarksAreWritten }
{}

/// One more entry that writes is one cell that is set.
pub fn cells_are_set()
    ensures { CellsAreSet }
{}

/// What the first entries write depends on them alone.
pub fn cells_follow_entries()
    ensures { CellsFollowEntries }
{}

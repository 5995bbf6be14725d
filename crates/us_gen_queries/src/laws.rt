//! The laws.
ghost use Rattle.us_gen_queries.specs.Accepted.{HeadsSelect, PartsCount};
ghost use Rattle.us_gen_queries.specs.Chain.{GivenStays, SelectedAreGiven, TablesAreWithin};

/// The queries of each part of a valid declaration that breaks no rule can be counted.
pub fn parts_count()
    ensures { PartsCount }
{}

/// The queries of the head of such a declaration can be counted, each is a sum or an enumeration, and each condition is on
/// a variable that they define.
pub fn heads_select()
    ensures { HeadsSelect }
{}

/// Columns that hold entries still do behind whatever changes only buffers and dims with numbers from theirs on.
pub fn given_stays()
    ensures { GivenStays }
{}

/// The columns of a part hold a matrix of their own, the entries of which the part has.
pub fn selected_are_given()
    ensures { SelectedAreGiven }
{}

/// The cells of the tables of a part are at most the size of the format's buffers.
pub fn tables_are_within()
    ensures { TablesAreWithin }
{}

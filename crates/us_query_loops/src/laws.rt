//! The laws.
ghost use Rattle.us_query_loops.specs.Laws.{CountsAreRanked, EntriesAreChosen, LoadsAreScheduled, OrdersSort};
ghost use Rattle.us_query_loops.specs.Laws.{QueriesDefineVariables, RunsAreEnumerated, RunsAreSummed};
ghost use Rattle.us_query_loops.specs.Worked.{WorkedColumns, WorkedParts, WorkedRows};

/// An `order` of the places by a value and then row and column sorts the entries by the value and then row-major; by the
/// value alone it sorts them by the value.
pub fn orders_sort()
    ensures { OrdersSort }
{}

/// Over entries sorted by a value and then row-major the place in a run of equal values is how many earlier entries have
/// the value, and the longest run is the extent, 0 of no entries.
pub fn runs_are_enumerated()
    ensures { RunsAreEnumerated }
{}

/// Over entries sorted by a value the length of a run is how many entries have the value.
pub fn runs_are_summed()
    ensures { RunsAreSummed }
{}

/// The indices in the order of counts that go downwards, equal ones by their numbers, are the table of a `reorder`, and its
/// inverse has the ranks.
pub fn counts_are_ranked()
    ensures { CountsAreRanked }
{}

/// Where each index goes to the first lane of least load in turn, the loads, the used slots, each index's lane and slot, the
/// extent and the table of rows are those of a `schedule`.
pub fn loads_are_scheduled()
    ensures { LoadsAreScheduled }
{}

/// The entries for which no condition before a part's holds, and the part's own does, are those of the part, in the order
/// in which they come. The last part has no condition of its own.
pub fn entries_are_chosen()
    ensures { EntriesAreChosen }
{}

/// The worked rows hold: runs, counts, ranks, lanes and parts of a matrix with an empty row and an empty column.
pub fn worked_rows()
    ensures rows { WorkedRows }
    ensures columns { WorkedColumns }
    ensures parts { WorkedParts }
{}

/// A query gives its variables the values that its column has, unless an earlier query defines them.
pub fn queries_define_variables()
    ensures { QueriesDefineVariables }
{}

//! The laws.
ghost use Rattle.us_gen_query.specs.Counting.{EnumerateTyped, Enumerates, SumTyped, Sums};
ghost use Rattle.us_gen_query.specs.Filling.{FillTyped, Fills};
ghost use Rattle.us_gen_query.specs.Reordering.{ReorderTyped, Reorders};
ghost use Rattle.us_gen_query.specs.Scheduling.{PassedAreWeights, RowsTyped, ScheduleTyped, Schedules, TablesRows};
ghost use Rattle.us_gen_query.specs.Selecting.{CopiesChosen, CopyChosenTyped, CountChosenTyped, CountsChosen};
ghost use Rattle.us_gen_query.specs.Terms.{ReadsAreFew, TermsHaveValues};

/// The term of an expression has its value, where the registers hold the entry.
pub fn terms_have_values()
    ensures { TermsHaveValues }
{}

/// An expression reads few columns.
pub fn reads_are_few()
    ensures { ReadsAreFew }
{}

/// The loop that fills a column is typed in every context with room.
pub fn fill_typed()
    ensures { FillTyped }
{}

/// The loop gives each cell of the column the value of the expression at the entry there.
pub fn fills()
    ensures { Fills }
{}

/// The loop that enumerates is typed in every context with room.
pub fn enumerate_typed()
    ensures { EnumerateTyped }
{}

/// The loops that sum are typed in every context with room.
pub fn sum_typed()
    ensures { SumTyped }
{}

/// The loop that enumerates leaves for each entry how many of its run come before it, and the longest run.
pub fn enumerates()
    ensures { Enumerates }
{}

/// The loops that sum leave for each entry how long its run is.
pub fn sums()
    ensures { Sums }
{}

/// The loops that rank rows or columns are typed in every context with room.
pub fn reorder_typed()
    ensures { ReorderTyped }
{}

/// The loops that rank rows or columns leave their order, and for each entry the rank of its index.
pub fn reorders()
    ensures { Reorders }
{}

/// The loops that spread rows or columns over lanes are typed in every context with room.
pub fn schedule_typed()
    ensures { ScheduleTyped }
{}

/// The loop that makes the table of the lanes is typed in every context with room.
pub fn rows_typed()
    ensures { RowsTyped }
{}

/// How many of the entries of the columns have an index is its weight in the matrix.
pub fn passed_are_weights()
    ensures { PassedAreWeights }
{}

/// The loops that spread rows or columns over lanes leave the lane and the slot of each index and of each entry's, and the
/// most slots of a lane.
pub fn schedules()
    ensures { Schedules }
{}

/// The loop leaves the table of the lanes.
pub fn tables_rows()
    ensures { TablesRows }
{}

/// The loop that counts the entries that pass is typed in every context with room.
pub fn count_chosen_typed()
    ensures { CountChosenTyped }
{}

/// The loop that copies the entries that pass is typed in every context with room.
pub fn copy_chosen_typed()
    ensures { CopyChosenTyped }
{}

/// The loop leaves the count of the entries that pass.
pub fn counts_chosen()
    ensures { CountsChosen }
{}

/// The loop leaves the entries that pass, in their order.
pub fn copies_chosen()
    ensures { CopiesChosen }
{}

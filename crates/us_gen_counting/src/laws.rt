//! The laws.
ghost use Rattle.us_gen_counting.specs.Answers.{BuffersAreNew};
ghost use Rattle.us_gen_counting.specs.Rooms.{CountsTyped, QueryTyped};
ghost use Rattle.us_gen_counting.specs.Runs.{Counts, QueryCounts};
ghost use Rattle.us_gen_counting.specs.Selects.{SelectTyped, Selects};

/// The phases of a query are typed in every context with room.
pub fn query_phases_fit()
    ensures { QueryTyped }
{}

/// The phases of a query leave its values.
pub fn query_phases_count()
    ensures { QueryCounts }
{}

/// The phases of queries, one after the other, are typed in every context with room.
pub fn counts_typed()
    ensures { CountsTyped }
{}

/// The phases of queries, one after the other, leave the variables' columns, the extents and the tables.
pub fn counts_lead()
    ensures { Counts }
{}

/// The phases that select are typed in every context with room.
pub fn select_typed()
    ensures { SelectTyped }
{}

/// The phases that select leave the entries of the part, in their order.
pub fn selects()
    ensures { Selects }
{}

/// The buffers of extents and tables are new ones of the queries, none twice.
pub fn buffers_are_new()
    ensures { BuffersAreNew }
{}

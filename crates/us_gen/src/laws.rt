//! The laws.
ghost use Rattle.us_gen.specs.Goes.{PhasesCompose, NewLines, DimLines};
ghost use Rattle.us_gen.specs.Columns.{Appends, HoldsMore, AppendsTyped};
ghost use Rattle.us_gen.specs.Levels.{NestsVisit, NestsPlace};
ghost use Rattle.us_gen.specs.Rooms.{NestsTyped};

/// Lists of phases that go one after the other cost what both cost, and keep what both keep.
pub fn phases_compose()
    ensures { PhasesCompose }
{}

/// A `new` line makes a buffer of zeros in one step.
pub fn new_lines_make_zeros()
    ensures { NewLines }
{}

/// A dim line defines a dim in one step.
pub fn dim_lines_add_dims()
    ensures { DimLines }
{}

/// A nest of levels does its inner block for each position in order.
pub fn nests_visit()
    ensures { NestsVisit }
{}

/// Inside a nest of levels the position is the value of its term.
pub fn nests_place()
    ensures { NestsPlace }
{}

/// A nest of levels around a typed block is typed.
pub fn nests_typed()
    ensures { NestsTyped }
{}

/// An append sets the cell at the counter of each column, and raises the counter.
pub fn appends()
    ensures { Appends }
{}

/// A column holds one more after the cell behind what it holds is set.
pub fn holds_more()
    ensures { HoldsMore }
{}

/// An append to columns of words is typed.
pub fn appends_typed()
    ensures { AppendsTyped }
{}

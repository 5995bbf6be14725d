//! The laws.
ghost use Rattle.us_gen_build.specs.Blocks.{BlocksBuild};
ghost use Rattle.us_gen_build.specs.Kinds.{BlocksTyped};
ghost use Rattle.us_gen_build.specs.Loops.{BuffersFillUp, LevelsOpen, LoopsTakeEntries};
ghost use Rattle.us_gen_build.specs.Making.{BuffersAreZero, MakesTyped};
ghost use Rattle.us_gen_build.specs.Orders.{OrdersSort};
ghost use Rattle.us_gen_build.specs.Turns.{LevelsTakeEntries};

/// The levels take the entry of each turn: each numbers its position and writes its cells, at a stated cost.
pub fn levels_take_entries()
    ensures { LevelsTakeEntries }
{}

/// The registers of the levels say in front of the loop that no entry was taken.
pub fn levels_open()
    ensures { LevelsOpen }
{}

/// The loop takes all entries, at the levels' costs and two steps and one a column for each entry.
pub fn loops_take_entries()
    ensures { LoopsTakeEntries }
{}

/// Each cell of a buffer becomes the greatest of those up to it, in four steps a cell.
pub fn buffers_fill_up()
    ensures { BuffersFillUp }
{}

/// From buffers of zeros the block builds those of its levels, at a stated cost.
pub fn blocks_build()
    ensures { BlocksBuild }
{}

/// The block keeps the rules where no register of its own is visible.
pub fn blocks_typed()
    ensures { BlocksTyped }
{}

/// The new buffers of the levels hold zeros.
pub fn buffers_are_zero()
    ensures { BuffersAreZero }
{}

/// The `new` lines of the levels keep the rules.
pub fn makes_typed()
    ensures { MakesTyped }
{}

/// An order by new buffers has the place of each entry once, in ascending order of the keys, then of the place.
pub fn orders_sort()
    ensures { OrdersSort }
{}

//! The laws.
ghost use Rattle.us_gen_walk.specs.Plans.{PlansRecover};
ghost use Rattle.us_gen_walk.specs.Rooms.{WalkIsTyped};
ghost use Rattle.us_gen_walk.specs.Runs.{EntriesHaveRanks, WalkLists};

/// The loops around a block are typed in every context with room where the block is typed inside.
pub fn walk_typed()
    ensures { WalkIsTyped }
{}

/// On the buffers of a lawful part the loops do their block for each entry in the order of positions, and nothing is
/// stuck.
pub fn walk_lists()
    ensures { WalkLists }
{}

/// On the buffers of a lawful part the steps of its plan give each entry its indices, within their ranges and tables.
pub fn plans_recover()
    ensures { PlansRecover }
{}

/// The rank of an entry of a lawful part is below the number of entries, and different entries have different ranks.
pub fn entries_have_ranks()
    ensures { EntriesHaveRanks }
{}

//! The laws.
ghost use Rattle.us_gen_building.specs.Kinds.{BuildingsLeave, BuildingsTyped};
ghost use Rattle.us_gen_building.specs.Entries.{EntriesAreBuilt, EntriesAreRows};
ghost use Rattle.us_gen_building.specs.Keys.{KeysAreEnough};
ghost use Rattle.us_gen_building.specs.Runs.{BuildingBuilds, CountingCounts, PhasesBuild};
ghost use Rattle.us_gen_building.specs.Shares.{SharesAreSmall};

/// The phases are typed in every context with room.
pub fn buildings_typed()
    ensures { BuildingsTyped }
{}

/// Behind the phases what was visible is, numbers of their own alone are new, and the buffers are among them, none twice.
pub fn buildings_leave()
    ensures { BuildingsLeave }
{}

/// Columns that hold the entries of a part in any order, their coordinates and their values, hold the part's rows.
pub fn entries_are_rows()
    ensures { EntriesAreRows }
{}

/// From columns that hold the rows of a lawful part in any order, the first phase orders them by enough keys, and makes the
/// dims the numbers of positions. Rows that are sorted already it leaves in their order.
pub fn counting_counts()
    ensures { CountingCounts }
{}

/// From there the second phase makes the part's buffers before packing.
pub fn building_builds()
    ensures { BuildingBuilds }
{}

/// Both phases build the buffers of a lawful part, in at most 64 steps for each level and one, times each entry and each cell
/// of the buffers and one.
pub fn phases_build()
    ensures { PhasesBuild }
{}

/// In any order of a part's rows the keys of its levels are enough.
pub fn keys_are_enough()
    ensures { KeysAreEnough }
{}

/// Where columns hold the entries of a lawful part in any order, the phases with the keys of its levels build the part's
/// buffers before packing. Where the entries stand in the order of their coordinates, so do the phases without an order.
pub fn entries_are_built()
    ensures { EntriesAreBuilt }
{}

/// A part whose buffers and numbers of positions are within the limit together has small numbers.
pub fn shares_are_small()
    ensures { SharesAreSmall }
{}

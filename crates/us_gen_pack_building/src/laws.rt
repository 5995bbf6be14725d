//! The laws.
ghost use Rattle.us_gen_pack_building.specs.Kinds.{PackingsLeave, PackingsTyped};
ghost use Rattle.us_gen_pack_building.specs.Runs.{PackingBuilds, PackingCounts, PackingsBuild};

/// The phases are typed in every context with room.
pub fn packings_typed()
    ensures { PackingsTyped }
{}

/// Behind the phases what was visible is, numbers of their own alone are new, and the buffers are among them, none twice.
pub fn packings_leave()
    ensures { PackingsLeave }
{}

/// The first phase orders the entries, and makes the dims the numbers of positions and of the packs' cells.
pub fn packing_counts()
    ensures { PackingCounts }
{}

/// From there the second phase makes the part's buffers, packs included.
pub fn packing_builds()
    ensures { PackingBuilds }
{}

/// Both phases build the buffers of a lawful part with lawful packs, in at most 64 steps for each level and one, times each
/// entry and each cell of the buffers and one.
pub fn packings_build()
    ensures { PackingsBuild }
{}

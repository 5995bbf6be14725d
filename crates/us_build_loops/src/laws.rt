//! The laws.
ghost use Rattle.us_build_loops.specs.Laws.{NeedsAreMet, PositionsAreCounted, BuffersAreRight, CostsAreLinear, BlocksBuildPieces};
ghost use Rattle.us_build_loops.specs.Orders.{OrdersSort};

/// Where the turns take rows that are ready, and the levels of the loop stand for levels of the format, the block has what
/// it needs of its entries.
pub fn needs_are_met()
    ensures { NeedsAreMet }
{}

/// After all entries the register of a level that only counts its nodes holds one less than the number of its positions.
pub fn positions_are_counted()
    ensures { PositionsAreCounted }
{}

/// After the block the lists are the buffers of the levels and the values.
pub fn buffers_are_right()
    ensures { BuffersAreRight }
{}

/// The loop costs at most seven steps a level and entry, and the ends of all `pos` two a level and four a cell.
pub fn costs_are_linear()
    ensures { CostsAreLinear }
{}

/// Of a lawful part, whose entries the turns take in any sorted order, the block builds the part's buffers before packing,
/// in steps that are linear in its entries and its buffers.
pub fn blocks_build_pieces()
    ensures { BlocksBuildPieces }
{}

/// The entries of a lawful part, in the order of their coordinates at all levels, or at the first ones behind which no level
/// is compressed or listed, are the part's entries and sorted.
pub fn orders_sort()
    ensures { OrdersSort }
{}

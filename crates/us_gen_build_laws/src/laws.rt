//! The laws.
ghost use Rattle.us_gen_build_laws.specs.Laws.{RunningNumbersAreRanks, PositionsAreNumbered, BuffersAreBuilt, SortedRowsAreReady, PiecesAreBuilt};

/// Where no node of a compressed level is lower than one before it, the running number of nodes is one more than the rank
/// of the entry's node, ends with the number of nodes, and its marks, filled up, count the nodes with a lower parent.
pub fn running_numbers_are_ranks()
    ensures { RunningNumbersAreRanks }
{}

/// For any list of levels, in an order in which the entries may be taken, the numberings give each entry its position, below
/// the number of positions. The running number of a counted level ends with the number of its positions.
pub fn positions_are_numbered()
    ensures { PositionsAreNumbered }
{}

/// For any list of levels, what the loop leaves are the buffers of the levels and the values.
pub fn buffers_are_built()
    ensures { BuffersAreBuilt }
{}

/// The entries of a lawful part may be taken sorted by all their coordinates, or by those up to the last compressed level
/// where no level behind it is listed.
pub fn sorted_rows_are_ready()
    ensures { SortedRowsAreReady }
{}

/// What the loop leaves of a lawful part, in each of these orders, are the part's buffers before packing.
pub fn pieces_are_built()
    ensures { PiecesAreBuilt }
{}

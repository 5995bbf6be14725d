//! The laws.
ghost use Rattle.us_format_loops.specs.Laws.{StartsCountNodes, EntriesHaveOneWay, EntriesAreRecovered};
ghost use Rattle.us_format_loops.specs.Laws.{SlotsKeepPositions, TightPartsAreFilled, PositionsFollowCoordinates};
ghost use Rattle.us_format_loops.specs.Laws.{LevelsSplit, NumbersStaySmall, PartsShareEntries};

/// At each level with nodes `pos` starts with 0, doesn't fall, counts the nodes below each position, and ends with the
/// number of nodes. Each node has one parent. `crd` has a cell for each position of the level, `val` for each position.
pub fn starts_count_nodes()
    ensures { StartsCountNodes }
{}

/// The positions and the coordinates of an entry are a way down the levels, and the only one to its last position. A
/// last position whose value is not 0 is that of an entry with this value.
pub fn entries_have_one_way()
    ensures { EntriesHaveOneWay }
{}

/// From the coordinates of an entry, the extents and the tables its row and its column are recovered, also by the plan.
/// Each step gives the value that its expression has at the entry, and the value lies in the expression's range.
pub fn entries_are_recovered()
    ensures { EntriesAreRecovered }
{}

/// After the last level that isn't a slot level positions and their number stay the same, and different entries have
/// different positions.
pub fn slots_keep_positions()
    ensures { SlotsKeepPositions }
{}

/// Where the last level that isn't a slot level is compressed or listed, there are as many last positions as entries,
/// each is that of an entry, and the position of an entry is the rank of its list of coordinates.
pub fn tight_parts_are_filled()
    ensures { TightPartsAreFilled }
{}

/// After any number of levels entries with one position have the same coordinates so far. After full and compressed
/// levels alone entries with the same coordinates have one position, and lower coordinates mean a lower position.
pub fn positions_follow_coordinates()
    ensures { PositionsFollowCoordinates }
{}

/// Only slot levels follow the last level that isn't one, and its kind says whether the part is tight. Where every level
/// after a loose level is loose, all levels before it are full or compressed.
pub fn levels_split_at_the_last_node_level()
    ensures { LevelsSplit }
{}

/// Where the size of a declaration is at most the limit, so is each number of positions. A position above a level with
/// nodes and a coordinate there, which is below 2^38, make one number that doesn't wrap.
pub fn numbers_stay_small()
    ensures { NumbersStaySmall }
{}

/// The parts of a lawful declaration, each with its entries, are lawful parts on matrices of the shape, and what is read of
/// the buffers is what they hold. The entries of all parts are those of the matrix, and as many.
pub fn parts_share_entries()
    ensures { PartsShareEntries }
{}

//! The laws.
ghost use Rattle.us_build_limits.specs.Texts.{BuildingsKeepLimits, CoordinatesKeepLimits, ExtentsKeepLimits, KeysFitLevels, PackingsKeepLimits};
ghost use Rattle.us_build_limits.specs.Unsorted.{SortNothing};

/// The phase that reads extents has at most two items an extent, and keeps the limits.
pub fn extents_keep_limits()
    ensures { ExtentsKeepLimits }
{}

/// The phase that makes columns of coordinates has at most 40 items a level, and keeps the limits.
pub fn coordinates_keep_limits()
    ensures { CoordinatesKeepLimits }
{}

/// The keys by which the entries of levels are put in order are some of the levels.
pub fn keys_of_levels_fit()
    ensures { KeysFitLevels }
{}

/// The phases that build the buffers of at most 16 levels without packs have at most 1024 items, and all of them keep the
/// limits.
pub fn buildings_keep_limits()
    ensures { BuildingsKeepLimits }
{}

/// The phases that build the buffers of at most 16 levels and 17 packs have at most 1024 items, and all of them keep the
/// limits.
pub fn packings_keep_limits()
    ensures { PackingsKeepLimits }
{}

/// The phases of a part that has no keys have no `order`.
pub fn phases_sort_nothing()
    ensures { SortNothing }
{}

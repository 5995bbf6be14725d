//! The laws.
ghost use Rattle.us_query_limits.specs.Texts.{CountsKeepLimits, SelectsKeepLimits};

/// The phases that count queries have at most 64 items a query, and all of them keep the limits.
pub fn count_phases_keep_limits()
    ensures { CountsKeepLimits }
{}

/// The phases that select entries have at most 64 items a query of the head, and 64 more, and all of them keep the limits.
pub fn select_phases_keep_limits()
    ensures { SelectsKeepLimits }
{}

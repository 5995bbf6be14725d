//! The laws.
ghost use Rattle.us_limits.specs.Laws.{TermsKeepLimits, BlocksKeepLimits, PhasesKeepLimits, WithoutOrder};
ghost use Rattle.us_limits.specs.Nests.{NestsKeepLimits};

/// A term of few nodes keeps the limits, wherever it stands.
pub fn terms_keep_limits()
    ensures { TermsKeepLimits }
{}

/// Two blocks, one after the other, have the statements of both and the depth of the deeper one.
pub fn blocks_keep_limits()
    ensures { BlocksKeepLimits }
{}

/// Two lists of phases, one after the other, have the items of both.
pub fn phases_keep_limits()
    ensures { PhasesKeepLimits }
{}

/// Blocks without an `order`, one after the other, are one without.
pub fn without_order_in_sequence()
    ensures { WithoutOrder }
{}

/// A nest of levels around a block adds a statement for each register that it names, five blocks for a level of nodes and
/// one for any other.
pub fn nests_keep_limits()
    ensures { NestsKeepLimits }
{}

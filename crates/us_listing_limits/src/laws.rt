//! The laws.
ghost use Rattle.us_listing_limits.specs.Laws.{UnpackingKeepsLimits, PlansReadTwice, PlansFit};

/// Both phases, of at most four parts with at most six levels and 16 extents each, have at most 16384 items and keep the
/// limits of a text, and neither has an `order`.
pub fn unpacking_keeps_limits()
    ensures { UnpackingKeepsLimits }
{}

/// The steps of a plan read tables at most twice, once for the row and once for the column.
pub fn plans_read_twice()
    ensures { PlansReadTwice }
{}

/// The numbers of a plan's steps are constants and divisors of its expressions, so they fit a text.
pub fn plans_fit()
    ensures { PlansFit }
{}

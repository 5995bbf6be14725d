//! Laws of checking, each on a function without code.
ghost use Rattle.us_check.specs.Laws.{ChecksWellFormed, ChecksOwn, ChecksAccepted};

/// Of a lawful declaration a check gives exactly the matrix whose buffers these are, within the limit. So the buffers of
/// a matrix check, within the limit, and in each accepted format they do.
pub fn checked_buffers_are_well_formed()
    ensures exact { ChecksWellFormed }
    ensures own { ChecksOwn }
    ensures accepted { ChecksAccepted }
{}

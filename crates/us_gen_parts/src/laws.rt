//! The laws.
ghost use Rattle.us_gen_parts.specs.Orderly.{AcceptedIsOrderly};
ghost use Rattle.us_gen_parts.specs.Walks.{WalksAreFew, WalksAreSeen, WalksList};

/// The parts of a valid declaration that breaks no rule are orderly, so the laws of places hold of each part of a format.
pub fn accepted_is_orderly()
    ensures { AcceptedIsOrderly }
{}

/// On the buffers of a matrix whose size is within the limit the loops over the parts of a format can list the entries.
pub fn walks_list()
    ensures { WalksList }
{}

/// All that the loops over the parts of a format read is visible where there are as many sources as buffers and the dims.
pub fn walks_are_seen()
    ensures { WalksAreSeen }
{}

/// The loops over the parts of a format name at most 8192 registers.
pub fn walks_are_few()
    ensures { WalksAreFew }
{}

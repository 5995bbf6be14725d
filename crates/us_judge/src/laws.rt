//! What the rules say of worked declarations, and what follows for all that keep them.
ghost use Rattle.us_judge.specs.Laws.{AcceptedIsLawful, BoundsHold};
ghost use Rattle.us_judge.specs.Worked.{WorkedRefusals, WorkedAcceptances, WorkedOrder};

/// The first refusals of small declarations, worked out by hand.
pub fn worked_refusals()
    ensures refused { WorkedRefusals }
    ensures accepted { WorkedAcceptances }
    ensures order { WorkedOrder }
{}

/// A valid declaration that breaks no rule is lawful, so the laws of lawful declarations hold of each format.
pub fn accepted_is_lawful()
    ensures { AcceptedIsLawful }
{}

/// The ends that `Format::level_bounds` tells of a level are those of its range, whatever extents the queries of its part have.
pub fn bounds_hold()
    ensures { BoundsHold }
{}

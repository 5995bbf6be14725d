//! The laws.
ghost use Rattle.us_gen_coordinates.specs.Held.{CoordinatesHeld};
ghost use Rattle.us_gen_coordinates.specs.Laws.{CoordinatesLead, CoordinatesTyped};

/// The phase keeps the rules where the columns are visible, and the columns of the levels are visible behind it.
pub fn coordinates_typed()
    ensures { CoordinatesTyped }
{}

/// Where the columns hold the entries, the phase leaves their coordinates, in steps that are linear in the entries.
pub fn coordinates_lead()
    ensures { CoordinatesLead }
{}

/// Where the columns hold the entries of a lawful part, and its variables, in some order, the columns of the levels then
/// hold the coordinates of the entries in that order.
pub fn coordinates_held()
    ensures { CoordinatesHeld }
{}

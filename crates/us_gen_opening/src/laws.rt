//! The laws.
ghost use Rattle.us_gen_opening.specs.Rooms.{OpeningIsTyped};
ghost use Rattle.us_gen_opening.specs.Runs.{OpeningOpens};
ghost use Rattle.us_gen_opening.specs.Sources.{OpeningsStand};
ghost use Rattle.us_gen_opening.specs.Tells.{OpeningTells, OpeningsTell};
ghost use Rattle.us_gen_opening.specs.Unpacking.{UnpackIsTyped, UnpackLists};

/// The phase is typed in every context with room, and its dims are visible behind it.
pub fn opening_is_typed()
    ensures { OpeningIsTyped }
{}

/// On the buffers of lawful parts the phase makes the dims of their extents and nodes, and that of the number of entries.
pub fn opening_opens()
    ensures { OpeningOpens }
{}

/// The phase and the one behind it that lists the entries are typed, where the dims make visible what the loops read.
pub fn unpack_is_typed()
    ensures { UnpackIsTyped }
{}

/// On the buffers of lawful parts both phases fill the columns with the entries of all parts, part by part and by position.
pub fn unpack_lists()
    ensures { UnpackLists }
{}

/// For a part whose sources and dims begin at a start, the dims of the phase are those that the part's places want.
pub fn opening_tells()
    ensures { OpeningTells }
{}

/// The same for parts one behind the other, with any number outside their dims for the number of entries.
pub fn openings_tell()
    ensures { OpeningsTell }
{}

/// With as many sources as the parts have buffers all that the phase reads is visible, and on the buffers of the parts
/// their extents stand in the sources.
pub fn openings_stand()
    ensures { OpeningsStand }
{}

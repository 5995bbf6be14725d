//! The laws.
ghost use Rattle.us_gen_unpack.specs.Rooms.{ListingIsTyped};
ghost use Rattle.us_gen_unpack.specs.Runs.{ListingLists};

/// The phase is typed in every context with room.
pub fn listing_is_typed()
    ensures { ListingIsTyped }
{}

/// On the buffers of lawful parts the phase fills the columns with the entries of all parts, part by part and by position.
pub fn listing_lists()
    ensures { ListingLists }
{}

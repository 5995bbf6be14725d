//! The laws.
ghost use Rattle.us_gen_places.specs.Holds.{BuffersAreOfParts, PlacesCover, PlacesHold};

/// On the buffers of a part its places hold its levels, its values and its tables.
pub fn places_hold()
    ensures { PlacesHold }
{}

/// The places of a part have a coordinate for each level, with the low end of the level's range, and a table for each query.
pub fn places_cover()
    ensures { PlacesCover }
{}

/// The buffers of a matrix are those of the parts, one part after the other.
pub fn buffers_are_of_parts()
    ensures { BuffersAreOfParts }
{}

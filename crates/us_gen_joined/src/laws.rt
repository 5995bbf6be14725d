//! The laws.
ghost use Rattle.us_gen_joined.specs.Joined.{ListedAreGiven, UnpackedIsListed};

/// Columns in which the entries of a matrix stand part by part and by position hold each of them once, in some order.
pub fn listed_are_given()
    ensures { ListedAreGiven }
{}

/// The phases that list a format's entries lead to columns over which its queries are counted, and leave room for what
/// follows.
pub fn unpacked_is_listed()
    ensures { UnpackedIsListed }
{}

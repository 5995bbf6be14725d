//! The laws.
ghost use Rattle.us_gen_parts_build.specs.Counted.{CountedIsGiven};

/// The columns and buffers that counting the queries of a part leaves are those from which its buffers are built.
pub fn counted_is_given()
    ensures { CountedIsGiven }
{}

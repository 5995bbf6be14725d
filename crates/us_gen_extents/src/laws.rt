//! The laws.
ghost use Rattle.us_gen_extents.specs.Extents.{ExtentsRead, ExtentsTyped};

/// The dims are the cells of the buffers, in a step each and one for each load.
pub fn extents_read()
    ensures { ExtentsRead }
{}

/// The phase keeps the rules in every context with room. Behind it what was visible is, and the dims alone are new.
pub fn extents_typed()
    ensures { ExtentsTyped }
{}

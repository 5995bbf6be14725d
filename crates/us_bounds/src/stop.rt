//! Where a check stops.

use std::alloc::AllocError;

/// The first item that breaks a rule, with its lowest rule; or there was no memory.
#[derive(Clone, Copy)]
pub enum Stop {
    Broken { item: u32, rule: u8 },
    Memory,
}

impl From<AllocError> for Stop {
    ghost use Rattle.std.specs.Prelude.{◌≡◌};
    ghost use Rattle.us_bounds.specs.declared.stop.Stop.TheVariants.{Memory};

    ghost from_gives = { λ _ e. e ≡ Memory };

    fn from(_error: AllocError) -> Stop {
        Stop::Memory
    }
}

/// The number of a rule, and whether an item keeps it.
#[derive(Clone, Copy)]
pub struct Rule(pub u8, pub bool);

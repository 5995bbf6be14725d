//! Where reading stops.

use std::alloc::{AllocError, AllocFailed};

/// A fault, with how many bytes of the text are left at it.
#[derive(Clone, Copy, Debug, PartialEq, Eq)]
pub enum Stop {
    Token(usize),
    Form(usize),
    TooBig(usize),
    Repeated(usize),
    Memory,
}

impl From<AllocError> for Stop {
    ghost use Rattle.std.specs.Prelude.{◌≡◌};
    ghost use Rattle.us_parse.specs.declared.stop.Stop.TheVariants.{Memory};

    ghost from_gives = { λ _ e. e ≡ Memory };

    fn from(_error: AllocError) -> Stop {
        Stop::Memory
    }
}

impl<T: Drop> From<AllocFailed<T>> for Stop {
    ghost use Rattle.std.specs.Prelude.{◌≡◌};
    ghost use Rattle.us_parse.specs.declared.stop.Stop.TheVariants.{Memory};

    ghost from_gives = { λ _ e. e ≡ Memory };

    fn from(_error: AllocFailed<T>) -> Stop {
        Stop::Memory
    }
}

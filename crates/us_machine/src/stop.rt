//! Why a run stops before its end.
ghost use Rattle.std.specs.Prelude.{◌≡◌};
ghost use Rattle.us_machine.specs.declared.stop.RunStop.TheVariants.{Memory};

use std::alloc::AllocError;

/// Why a run stops before its end.
#[derive(Clone, Copy, Debug, PartialEq, Eq)]
pub enum RunStop {
    /// A length or a dim is above 67108865.
    TooLarge,
    /// There are more steps than the budget allows.
    OutOfSteps,
    /// Memory ran out.
    Memory,
}

impl From<AllocError> for RunStop {
    ghost from_gives = { λ _ e. e ≡ Memory };

    fn from(_e: AllocError) -> RunStop {
        RunStop::Memory
    }
}

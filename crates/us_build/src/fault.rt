//! Why there are no buffers.
ghost use Rattle.std.specs.Prelude.{◌≡◌};
ghost use Rattle.us_build.specs.declared.fault.BuildFault.TheVariants.{Memory};

use std::alloc::AllocError;

/// Why buffers are not built.
#[derive(Clone, Copy, Debug, PartialEq, Eq)]
pub enum BuildFault {
    /// The size is above the limit.
    TooLarge,
    /// Memory ran out.
    Memory,
}

impl From<AllocError> for BuildFault {
    ghost from_gives = { λ _ e. e ≡ Memory };

    fn from(_e: AllocError) -> BuildFault {
        BuildFault::Memory
    }
}

//! Why there is no hop.
ghost use Rattle.std.specs.Prelude.{◌≡◌};
ghost use Rattle.us_hop.specs.declared.fault.HopFault.TheVariants.{Memory};

use std::alloc::AllocError;

/// Why a matrix doesn't go to a format.
#[derive(Clone, Copy, Debug, PartialEq, Eq)]
pub enum HopFault {
    /// The size of the format on the matrix is above the limit.
    TooLarge,
    /// Memory ran out.
    Memory,
}

impl From<AllocError> for HopFault {
    ghost from_gives = { λ _ e. e ≡ Memory };

    fn from(_e: AllocError) -> HopFault {
        HopFault::Memory
    }
}

//! Why there is no product.
ghost use Rattle.std.specs.Prelude.{◌≡◌};
ghost use Rattle.us_multiply.specs.declared.fault.KernelFault.TheVariants.{Memory};

use std::alloc::AllocError;

/// Why a held matrix isn't multiplied by an operand.
#[derive(Clone, Copy, Debug, PartialEq, Eq)]
pub enum KernelFault {
    /// The operand has not as many rows as the matrix has columns.
    Operand { have: u32, want: u32 },
    /// The product has more than 33554432 cells.
    TooLarge,
    /// Memory ran out.
    Memory,
}

impl From<AllocError> for KernelFault {
    ghost from_gives = { λ _ e. e ≡ Memory };

    fn from(_e: AllocError) -> KernelFault {
        KernelFault::Memory
    }
}

//! Why a program isn't verified.

use std::alloc::AllocError;

/// The first item of a program that breaks a rule.
#[derive(Clone, Copy, Debug, PartialEq, Eq)]
pub struct Unbound {
    /// The phase, from 0 on. The `give` line is a phase after the last.
    pub phase: u64,
    /// The item in its phase, from 0 on: `new` lines, statements also inside blocks, dim lines.
    pub stmt: u32,
    /// The lowest rule that it breaks, from 1 on.
    pub rule: u8,
}

/// Why a program isn't verified.
#[derive(Clone, Copy, Debug, PartialEq, Eq)]
pub enum VerifyFault {
    /// An item breaks a rule.
    Unbound(Unbound),
    /// There was no memory.
    Memory,
}

impl From<AllocError> for VerifyFault {
    ghost use Rattle.std.specs.Prelude.{◌≡◌};
    ghost use Rattle.us_bounds.specs.declared.fault.VerifyFault.TheVariants.{Memory};

    ghost from_gives = { λ _ e. e ≡ Memory };

    fn from(_error: AllocError) -> VerifyFault {
        VerifyFault::Memory
    }
}

//! Why a declaration is not accepted.
ghost use Rattle.std.specs.Prelude.{◌≡◌};
ghost use Rattle.us_judge.specs.declared.refusal.JudgeFault.TheVariants.{Memory};

use std::alloc::AllocError;

/// The first rule that a declaration breaks, and where.
#[derive(Clone, Copy, Debug, PartialEq, Eq)]
pub struct Refusal {
    /// The number of the rule.
    pub rule: u8,
    /// The part: 0 is the head, the parts follow from 1 on.
    pub part: u8,
    /// The number of the item of the part that breaks the rule, 0 where the rule is on the part as a whole.
    pub place: u32,
}

/// Why there is no format.
#[derive(Clone, Copy, Debug, PartialEq, Eq)]
pub enum JudgeFault {
    /// The declaration breaks a rule.
    Refused(Refusal),
    /// Memory ran out.
    Memory,
}

impl From<AllocError> for JudgeFault {
    ghost from_gives = { λ _ e. e ≡ Memory };

    fn from(_e: AllocError) -> JudgeFault {
        JudgeFault::Memory
    }
}

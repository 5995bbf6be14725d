// Why a script isn't read.
ghost use Rattle.std.specs.Prelude.{◌≡◌};
ghost use Rattle.us_script.specs.declared.fault.ScriptFault.TheVariants.{Memory};

use std::alloc::{AllocError, AllocFailed};

/// The first fault of a script, with the number of its line, which counts from 1.
#[derive(Clone, Copy, Debug, PartialEq, Eq)]
pub enum ScriptFault {
    /// The line is no step.
    Line { line: u64 },
    /// A coordinate lies outside the shape.
    OutOfShape { line: u64 },
    /// A value is below -2^63 or above 2^63-1.
    ValueRange { line: u64 },
    /// There is no set to undo.
    Nothing { line: u64 },
    /// The line has step 1048577, or the 257th `size`.
    TooMany { line: u64 },
    /// Memory ran out.
    Memory,
}

impl From<AllocError> for ScriptFault {
    ghost from_gives = { λ _ e. e ≡ Memory };

    fn from(_: AllocError) -> Self {
        ScriptFault::Memory
    }
}

impl<T: Drop> From<AllocFailed<T>> for ScriptFault {
    ghost from_gives = { λ _ e. e ≡ Memory };

    fn from(_: AllocFailed<T>) -> Self {
        ScriptFault::Memory
    }
}

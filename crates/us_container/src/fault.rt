//! Why a file is no container.
ghost use Rattle.std.specs.Prelude.{◌≡◌};
ghost use Rattle.us_container.specs.declared.fault.ContainerFault.TheVariants.{Memory};
ghost use Rattle.us_container.specs.Contained.{fault_of};

use std::alloc::AllocError;
use us_check::Broken;
use us_judge::Refusal;

/// The first fault of a container. Places are in bytes from 0, parts are numbered from 1, buffers, positions and cells from 0.
#[derive(Clone, Copy, Debug, PartialEq, Eq)]
pub enum ContainerFault {
    /// The file has fewer than seven bytes, or doesn't begin with `USPARSE`.
    Magic,
    /// The version byte is `n`, and isn't 1.
    Version {
        n: u64,
    },
    /// The file ends in or before the field that begins there.
    Truncated {
        at: u64,
    },
    /// The text isn't the canonical text of a declaration: the first fault of reading it, the first byte behind the declaration that
    /// is no blank or comment, or the first place at which it differs from the canonical text.
    DeclText {
        at: u64,
    },
    /// The declaration breaks a rule.
    Refused(Refusal),
    /// Rows or columns are outside 1 to 2147483647.
    Shape,
    /// The number of buffers, or the length of this one, doesn't fit the format and the shape.
    Lengths {
        buffer: u64,
    },
    /// Bytes stand behind the last cell.
    Trailing {
        at: u64,
    },
    /// Lengths and numbers of positions add up to more than the limit of 67108864.
    TooLarge,
    /// The position `x` of the part has a value that isn't 0, and no coordinate in the shape, or one that came before.
    Climb {
        part: u64,
        x: u64,
    },
    /// Cell `x` of the buffer is `have`; the format's buffer of the matrix has `want` there.
    Cell {
        buffer: u64,
        x: u64,
        have: i64,
        want: i64,
    },
    /// All common cells agree, but the buffer has `have` cells in place of `want`; 2^64 - 1 stands for greater numbers.
    Long {
        buffer: u64,
        have: u64,
        want: u64,
    },
    /// Memory ran out.
    Memory,
}

impl From<AllocError> for ContainerFault {
    ghost from_gives = { λ _ e. e ≡ Memory };

    fn from(_e: AllocError) -> ContainerFault {
        ContainerFault::Memory
    }
}

impl From<Broken> for ContainerFault {
    ghost from_gives = { λ b e. e ≡ fault_of b };

    fn from(broken: Broken) -> ContainerFault {
        match broken {
            Broken::Lengths { buffer } => ContainerFault::Lengths { buffer },
            Broken::TooLarge => ContainerFault::TooLarge,
            Broken::Climb { part, x } => ContainerFault::Climb { part, x },
            Broken::Cell {
                buffer,
                x,
                have,
                want,
            } => ContainerFault::Cell {
                buffer,
                x,
                have,
                want,
            },
            Broken::Long { buffer, have, want } => ContainerFault::Long { buffer, have, want },
            Broken::Memory => ContainerFault::Memory,
        }
    }
}

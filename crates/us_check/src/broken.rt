//! Why buffers are not well-formed.
ghost use Rattle.std.specs.Prelude.{◌≡◌};
ghost use Rattle.us_check.specs.declared.broken.Broken.TheVariants.{Memory};
ghost use Rattle.us_check.specs.Checks.{broken_by};

use std::alloc::AllocError;
use us_levels::Difference;

/// The first reason why buffers are not a format's buffers of a matrix within the limit. Parts are numbered from 1, buffers,
/// positions and cells from 0.
#[derive(Clone, Copy, Debug, PartialEq, Eq)]
pub enum Broken {
    /// The number of buffers, or the length of this one, doesn't fit the format and the shape.
    Lengths {
        buffer: u64,
    },
    /// Lengths and numbers of positions add up to more than the limit of 67108864.
    TooLarge,
    /// The position `x` of the part has a value that isn't 0, and no coordinate in the shape, or one that came before.
    Climb {
        part: u64,
        x: u64,
    },
    /// Cell `x` of the buffer is `have`; the format's buffer of the matrix has `want` there.
    Cell {
        buffer: u64,
        x: u64,
        have: i64,
        want: i64,
    },
    /// All common cells agree, but the buffer has `have` cells in place of `want`; 2^64 - 1 stands for greater numbers.
    Long {
        buffer: u64,
        have: u64,
        want: u64,
    },
    /// Memory ran out.
    Memory,
}

impl From<AllocError> for Broken {
    ghost from_gives = { λ _ e. e ≡ Memory };

    fn from(_e: AllocError) -> Broken {
        Broken::Memory
    }
}

impl From<Difference> for Broken {
    ghost from_gives = { λ difference b. b ≡ broken_by difference };

    fn from(difference: Difference) -> Broken {
        match difference {
            Difference::Cell {
                buffer,
                x,
                have,
                want,
            } => Broken::Cell {
                buffer,
                x,
                have,
                want,
            },
            Difference::Long { buffer, have, want } => Broken::Long { buffer, have, want },
        }
    }
}

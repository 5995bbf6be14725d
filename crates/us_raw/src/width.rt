//! The widths of cells.
ghost use Rattle.std.specs.Prelude.{◌≡◌, ◌<◌, ◌≤◌, ℕ, pos, MatchBool};
ghost use Rattle.us_raw.specs.Widths.{size_of, width_of, Holds, HoldsAll, AreBelow, IsLeast};

/// How many bytes a cell takes: one, two or four for the numbers from 0 to 255,
/// 65535 or 4294967295, and eight for every `i64`.
#[derive(Clone, Copy, Debug, PartialEq, Eq)]
pub enum Width {
    W1,
    W2,
    W4,
    W8,
}

impl Width {
    /// The bytes of a cell.
    pub fn bytes(self) -> u64
        ensures { result ≡ size_of self }
    {
        match self {
            Width::W1 => 1,
            Width::W2 => 2,
            Width::W4 => 4,
            Width::W8 => 8,
        }
    }

    /// The width whose cells take that many bytes.
    pub(crate) fn of_bytes(bytes: u64) -> Width
        ensures { result ≡ width_of bytes }
    {
        if bytes <= 1 {
            Width::W1
        } else if bytes <= 2 {
            Width::W2
        } else if bytes <= 4 {
            Width::W4
        } else {
            Width::W8
        }
    }

    /// The least width that holds every number below the bound.
    pub fn for_below(bound: u64) -> Width
        requires { bound ≤ 9223372036854775808 }
        ensures { IsLeast (λ w. (n : ℕ) → n < bound → Holds w (pos n)) result }
    {
        if bound <= 1 << 8 {
            Width::W1
        } else if bound <= 1 << 16 {
            Width::W2
        } else if bound <= 1 << 32 {
            Width::W4
        } else {
            Width::W8
        }
    }

    /// The least width that holds every one of the cells.
    pub fn least(cells: &[i64]) -> Width
        ensures { IsLeast (λ w. HoldsAll w cells.now) result }
    {
        if all_below(cells, 1 << 8) {
            Width::W1
        } else if all_below(cells, 1 << 16) {
            Width::W2
        } else if all_below(cells, 1 << 32) {
            Width::W4
        } else {
            Width::W8
        }
    }
}

/// Whether each of the cells is at least 0 and below the bound.
fn all_below(cells: &[i64], bound: i64) -> bool
    ensures { MatchBool result (AreBelow bound cells.now) (AreBelow bound cells.now → ⊥) }
{
    for index in 0..cells.len() {
        if cells[index] < 0 || bound <= cells[index] {
            return false;
        }
    }
    true
}

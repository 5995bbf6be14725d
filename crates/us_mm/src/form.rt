// What the header says of the entries.
ghost use Rattle.std.specs.Prelude.{◌≡◌, ◌∷◌, [], MatchOption};
ghost use Rattle.us_mm.specs.Forms.{allows, stores, stands_for};

use us_matrix::Triple;

/// What an entry line has behind its row and column.
#[derive(Clone, Copy, Debug, PartialEq, Eq)]
pub enum Field {
    /// A value.
    Integer,
    /// Nothing: the value is 1.
    Pattern,
}

/// Which entries stand in the file, and what they tell of the others.
#[derive(Clone, Copy, Debug, PartialEq, Eq)]
pub enum Symmetry {
    /// All entries.
    General,
    /// Those on or below the diagonal; the value at (j, i) equals the one at (i, j).
    Symmetric,
    /// Those strictly below the diagonal; the value at (j, i) is the negative of the one at (i, j), modulo 2^64.
    SkewSymmetric,
}

/// The field and the symmetry of a file.
#[derive(Clone, Copy, Debug, PartialEq, Eq)]
pub struct Form {
    pub field: Field,
    pub symmetry: Symmetry,
}

impl Symmetry {
    /// Whether a matrix of this symmetry can have that many rows and columns.
    pub fn allows(self, rows: u64, cols: u64) -> bool
        ensures { result ≡ allows self rows cols }
    {
        match self {
            Symmetry::General => true,
            _ => rows == cols,
        }
    }

    /// Whether the entry at a row and a column, numbered from 1, stands in the file.
    pub fn stores(self, row: u64, col: u64) -> bool
        ensures { result ≡ stores self row col }
    {
        match self {
            Symmetry::General => true,
            Symmetry::Symmetric => col <= row,
            Symmetry::SkewSymmetric => col < row,
        }
    }

    /// The triple that an entry off the diagonal tells beside its own.
    pub fn mirrored(self, t: Triple) -> Option<Triple>
        ensures { MatchOption result (stands_for self t ≡ t ∷ []) (λ m. stands_for self t ≡ t ∷ m ∷ []) }
    {
        if t.i == t.j {
            return None;
        }
        let v = match self {
            Symmetry::General => return None,
            Symmetry::Symmetric => t.v,
            Symmetry::SkewSymmetric => t.v.wrapping_neg(),
        };
        Some(Triple { i: t.j, j: t.i, v })
    }
}

//! What several tests start from: the worked formats and small matrices.

use std::alloc::Global;
use us_judge::{Format, judge};
use us_matrix::Matrix;
use us_mm::read_coordinate;
use us_parse::parse_one;

/// The 3 x 4 matrix with 5 at (0, 0), 2 at (0, 2) and -7 at (2, 1).
pub const SAMPLE: &str =
    "%%MatrixMarket matrix coordinate integer general\n3 4 3\n1 1 5\n1 3 2\n3 2 -7\n";

/// A 3 x 4 matrix with 1 at (0, 3), 2 at (1, 0), 3 at (1, 2) and 4 at (2, 1): two rows have one entry each.
pub const TIED: &str =
    "%%MatrixMarket matrix coordinate integer general\n3 4 4\n1 4 1\n2 1 2\n2 3 3\n3 2 4\n";

/// The 3 x 4 matrix without entries.
pub const EMPTY: &str = "%%MatrixMarket matrix coordinate integer general\n3 4 0\n";

pub const CSR: &str = "format csr { map (i, j) trim 1 merge 1 }";

pub const CSC: &str = "format csc { map (j, i) trim 1 merge 1 }";

pub const COO: &str = "format coo { map (i, j) trim 0, 1 }";

pub const DCSR: &str = "format dcsr { map (i, j) trim 0, 1 merge 0, 1 }";

pub const BCSR: &str = "format bcsr { map (i / 2, j / 2, i % 2, j % 2) trim 1 merge 1 }";

pub const DIA: &str = "format dia { map (j - i, i) trim 0 merge 0 }";

pub const ELL: &str = "format ell { let k = enumerate(i) map (i, k, j) trim 2 }";

pub const JDS: &str = "format jds { let k = enumerate(i) let p = reorder(i) map (p, k, j) trim 2 }";

pub const CISR: &str =
    "format cisr { let lane, slot = schedule(i) into 2 map (lane, slot, j) trim 2 merge 2 }";

pub const AOS: &str = "format aos { map (i, j) trim 0, 1 pack (0, 1, val) }";

pub const HYB: &str = "format hyb {
  let k = enumerate(i)
  part when k < 1 { let e = enumerate(i) map (i, e, j) trim 2 }
  rest { map (i, j) trim 0, 1 }
}";

pub const HEAVY: &str = "format heavy {
  let n = sum(i)
  part when n >= 2 { map (i, j) trim 1 merge 1 }
  rest { map (i, j) trim 0, 1 }
}";

/// Three lists of entries: the first of each row, the second of each row, and all others.
pub const TRI: &str = "format tri {
  let k = enumerate(i)
  part when k < 1 { map (i, j) trim 0, 1 }
  part when k < 2 { map (i, j) trim 0, 1 }
  rest { map (i, j) trim 0, 1 }
}";

/// The matrix of a file, if it has one.
pub fn matrix_in(alloc: Global, text: &str) -> Option<Matrix> {
    match read_coordinate(alloc, text.as_bytes()) {
        Ok(matrix) => Some(matrix),
        Err(_) => None,
    }
}

/// The format that a text declares, if it declares one.
pub fn format_in(alloc: Global, text: &str) -> Option<Format> {
    match parse_one(alloc, text.as_bytes(), 0) {
        Ok(one) => match judge(alloc, one.decl) {
            Ok(format) => Some(format),
            Err(_) => None,
        },
        Err(_) => None,
    }
}

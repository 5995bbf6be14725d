//! What several tests start from: a library of worked formats, a small matrix as text, and its container.

use std::alloc::{AllocError, Global};

pub const CSR: &str = "format csr {
  map (i, j)
  trim 1
  merge 1
}
";

pub const CSC: &str = "format csc {
  map (j, i)
  trim 1
  merge 1
}
";

pub const COO: &str = "format coo {
  map (i, j)
  trim 0, 1
}
";

pub const DCSR: &str = "format dcsr {
  map (i, j)
  trim 0, 1
  merge 0, 1
}
";

pub const BCSR: &str = "format bcsr {
  map (i / 2, j / 2, i % 2, j % 2)
  trim 1
  merge 1
}
";

pub const DIA: &str = "format dia {
  map (j - i, i)
  trim 0
  merge 0
}
";

pub const ELL: &str = "format ell {
  let k = enumerate(i)
  map (i, k, j)
  trim 2
}
";

pub const JDS: &str = "format jds {
  let k = enumerate(i)
  let p = reorder(i)
  map (p, k, j)
  trim 2
}
";

pub const CISR: &str = "format cisr {
  let lane, slot = schedule(i) into 2
  map (lane, slot, j)
  trim 2
  merge 2
}
";

pub const AOS: &str = "format aos {
  map (i, j)
  trim 0, 1
  pack (0, 1, val)
}
";

pub const HYB: &str = "format hyb {
  let k = enumerate(i)
  part when k < 1 {
    let e = enumerate(i)
    map (i, e, j)
    trim 2
  }
  rest {
    map (i, j)
    trim 0, 1
  }
}
";

pub const HEAVY: &str = "format heavy {
  let n = sum(i)
  part when n >= 2 {
    map (i, j)
    trim 1
    merge 1
  }
  rest {
    map (i, j)
    trim 0, 1
  }
}
";

/// A dozen worked formats, each in canonical text.
pub const FORMATS: [&str; 12] = [
    CSR, CSC, COO, DCSR, BCSR, DIA, ELL, JDS, CISR, AOS, HYB, HEAVY,
];

/// Three lists of entries: the first of each row, the second of each row, and all others.
pub const TRI: &str = "format tri {
  let k = enumerate(i)
  part when k < 1 {
    map (i, j)
    trim 0, 1
  }
  part when k < 2 {
    map (i, j)
    trim 0, 1
  }
  rest {
    map (i, j)
    trim 0, 1
  }
}
";

/// The 3 x 4 matrix with 5 at (0, 0), 2 at (0, 2) and -7 at (2, 1), in canonical text.
pub const SAMPLE: &str =
    "%%MatrixMarket matrix coordinate integer general\n3 4 3\n1 1 5\n1 3 2\n3 2 -7\n";

/// A 3 x 4 matrix with 1 at (0, 3), 2 at (1, 0), 3 at (1, 2) and 4 at (2, 1): two rows have one entry each.
pub const TIED: &str =
    "%%MatrixMarket matrix coordinate integer general\n3 4 4\n1 4 1\n2 1 2\n2 3 3\n3 2 4\n";

/// The 3 x 4 matrix without entries.
pub const EMPTY: &str = "%%MatrixMarket matrix coordinate integer general\n3 4 0\n";

/// The container of the first matrix in the format csr.
pub const CONTAINER: &[u8] =
    b"USPARSE\x01\x2f\0\0\0\0\0\0\0format csr {\n  map (i, j)\n  trim 1\n  merge 1\n}\n\
\x03\0\0\0\0\0\0\0\x04\0\0\0\0\0\0\0\x03\0\0\0\0\0\0\0\
\x04\0\0\0\0\0\0\0\0\0\0\0\0\0\0\0\x02\0\0\0\0\0\0\0\x02\0\0\0\0\0\0\0\x03\0\0\0\0\0\0\0\
\x03\0\0\0\0\0\0\0\0\0\0\0\0\0\0\0\x02\0\0\0\0\0\0\0\x01\0\0\0\0\0\0\0\
\x03\0\0\0\0\0\0\0\x05\0\0\0\0\0\0\0\x02\0\0\0\0\0\0\0\xf9\xff\xff\xff\xff\xff\xff\xff";

/// The library of the worked formats.
pub fn library(alloc: Global) -> Result<String, AllocError> {
    let mut text = String::new(alloc);
    for format in FORMATS {
        text.push_str(format)?;
    }
    Ok(text)
}

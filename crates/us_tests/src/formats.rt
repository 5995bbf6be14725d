//! Small matrices in each of the worked formats and a few more: the buffers, which were worked out by hand, and what is read of them.

use crate::containers::{changed, container};
use crate::runs::{answer, files, has_file, has_hops, is_answered, is_file};
use crate::samples::{
    AOS, BCSR, CISR, COO, CSC, CSR, DCSR, DIA, ELL, EMPTY, HEAVY, HYB, JDS, SAMPLE, TIED, TRI,
};
use std::alloc::{AllocError, Global};
use std::test::Fail;

/// A format, what converting a matrix to it prints, and the buffers of the matrix.
#[derive(Clone, Copy)]
struct Case {
    name: &'static str,
    text: &'static str,
    printed: &'static str,
    buffers: &'static [&'static [i64]],
}

/// Columns in three lanes.
const LANES: &str = "format lanes {
  let a, b = schedule(j) into 3
  map (a, b, i)
  trim 2
}
";

/// The first entry of each row compressed, and the others counted anew.
const TAIL: &str = "format tail {
  let k = enumerate(i)
  part when k < 1 {
    map (i, j)
    trim 1
    merge 1
  }
  rest {
    let e = enumerate(i)
    map (i, e, j)
    trim 2
  }
}
";

/// Long rows with a cell for each column, middling ones compressed, single entries as triples.
const BY_WEIGHT: &str = "format by_weight {
  let n = sum(i)
  part when n >= 100 {
    map (i, j)
    trim 0
    merge 0
  }
  part when n >= 2 {
    map (i, j)
    trim 0, 1
    merge 0, 1
  }
  rest {
    map (i, j)
    trim 0, 1
    pack (0, 1, val)
  }
}
";

/// The small matrix.
const SAMPLES: [Case; 16] = [
    Case {
        name: "csr",
        text: CSR,
        printed: "csr 16\n",
        buffers: &[&[0, 2, 2, 3], &[0, 2, 1], &[5, 2, -7]],
    },
    Case {
        name: "csc",
        text: CSC,
        printed: "csc 18\n",
        buffers: &[&[0, 1, 2, 3, 3], &[0, 2, 0], &[5, -7, 2]],
    },
    Case {
        name: "coo",
        text: COO,
        printed: "coo 17\n",
        buffers: &[&[0, 3], &[0, 0, 2], &[0, 2, 1], &[5, 2, -7]],
    },
    Case {
        name: "dcsr",
        text: DCSR,
        printed: "dcsr 18\n",
        buffers: &[&[0, 2], &[0, 2], &[0, 2, 3], &[0, 2, 1], &[5, 2, -7]],
    },
    Case {
        name: "bcsr",
        text: BCSR,
        printed: "bcsr 41\n",
        buffers: &[
            &[0, 2, 3],
            &[0, 1, 0],
            &[5, 0, 0, 0, 2, 0, 0, 0, 0, -7, 0, 0],
        ],
    },
    Case {
        name: "dia",
        text: DIA,
        printed: "dia 26\n",
        buffers: &[&[0, 3], &[1, 2, 4], &[0, 0, -7, 5, 0, 0, 2, 0, 0]],
    },
    Case {
        name: "ell",
        text: ELL,
        printed: "ell 28\n",
        buffers: &[&[2], &[0, 2, 0, 0, 1, 0], &[5, 2, 0, 0, -7, 0]],
    },
    Case {
        name: "jds",
        text: JDS,
        printed: "jds 31\n",
        buffers: &[&[2], &[0, 2, 1], &[0, 2, 1, 0, 0, 0], &[5, 2, -7, 0, 0, 0]],
    },
    Case {
        name: "cisr",
        text: CISR,
        printed: "cisr 25\n",
        buffers: &[
            &[2],
            &[1, 0, 2, 3],
            &[0, 2, 2, 2, 3],
            &[0, 2, 1],
            &[5, 2, -7],
        ],
    },
    Case {
        name: "aos",
        text: AOS,
        printed: "aos 17\n",
        buffers: &[&[0, 3], &[0, 0, 5, 0, 2, 2, 2, 1, -7]],
    },
    Case {
        name: "hyb",
        text: HYB,
        printed: "hyb 23\n",
        buffers: &[&[1], &[0, 0, 1], &[5, 0, -7], &[0, 1], &[0], &[2], &[2]],
    },
    Case {
        name: "heavy",
        text: HEAVY,
        printed: "heavy 20\n",
        buffers: &[&[0, 2, 2, 2], &[0, 2], &[5, 2], &[0, 1], &[2], &[1], &[-7]],
    },
    Case {
        name: "tri",
        text: TRI,
        printed: "tri 21\n",
        buffers: &[
            &[0, 2],
            &[0, 2],
            &[0, 1],
            &[5, -7],
            &[0, 1],
            &[0],
            &[2],
            &[2],
            &[0, 0],
            &[],
            &[],
            &[],
        ],
    },
    // columns 0 and 3 share the first lane, since column 3 has no entry
    Case {
        name: "lanes",
        text: LANES,
        printed: "lanes 32\n",
        buffers: &[
            &[2],
            &[1, 4, 2, 0, 3, 0],
            &[0, 1, 1, 2, 2, 3, 3],
            &[0, 2, 0],
            &[5, -7, 2],
        ],
    },
    // the second entry of a row is the first one of the rest
    Case {
        name: "tail",
        text: TAIL,
        printed: "tail 29\n",
        buffers: &[
            &[0, 1, 1, 2],
            &[0, 1],
            &[5, -7],
            &[1],
            &[2, 0, 0],
            &[2, 0, 0],
        ],
    },
    Case {
        name: "by_weight",
        text: BY_WEIGHT,
        printed: "by_weight 21\n",
        buffers: &[
            &[0, 0],
            &[],
            &[],
            &[0, 1],
            &[0],
            &[0, 2],
            &[0, 2],
            &[5, 2],
            &[0, 1],
            &[2, 1, -7],
        ],
    },
];

/// The matrix with two rows of one entry: the lower one comes first.
const TIES: [Case; 2] = [
    Case {
        name: "jds",
        text: JDS,
        printed: "jds 31\n",
        buffers: &[&[2], &[1, 0, 2], &[0, 2, 3, 0, 1, 0], &[2, 3, 1, 0, 4, 0]],
    },
    Case {
        name: "cisr",
        text: CISR,
        printed: "cisr 28\n",
        buffers: &[
            &[2],
            &[1, 3, 2, 0],
            &[0, 1, 2, 4, 4],
            &[3, 1, 0, 2],
            &[1, 4, 2, 3],
        ],
    },
];

/// The matrix without entries.
const EMPTIES: [Case; 8] = [
    Case {
        name: "dia",
        text: DIA,
        printed: "dia 2\n",
        buffers: &[&[0, 0], &[], &[]],
    },
    Case {
        name: "ell",
        text: ELL,
        printed: "ell 4\n",
        buffers: &[&[0], &[], &[]],
    },
    Case {
        name: "jds",
        text: JDS,
        printed: "jds 7\n",
        buffers: &[&[0], &[0, 1, 2], &[], &[]],
    },
    // all rows are in the first lane, whose load stays 0
    Case {
        name: "cisr",
        text: CISR,
        printed: "cisr 22\n",
        buffers: &[&[3], &[1, 2, 3, 0, 0, 0], &[0, 0, 0, 0, 0, 0, 0], &[], &[]],
    },
    Case {
        name: "hyb",
        text: HYB,
        printed: "hyb 6\n",
        buffers: &[&[0], &[], &[], &[0, 0], &[], &[], &[]],
    },
    Case {
        name: "heavy",
        text: HEAVY,
        printed: "heavy 9\n",
        buffers: &[&[0, 0, 0, 0], &[], &[], &[0, 0], &[], &[], &[]],
    },
    Case {
        name: "tri",
        text: TRI,
        printed: "tri 6\n",
        buffers: &[
            &[0, 0],
            &[],
            &[],
            &[],
            &[0, 0],
            &[],
            &[],
            &[],
            &[0, 0],
            &[],
            &[],
            &[],
        ],
    },
    Case {
        name: "tail",
        text: TAIL,
        printed: "tail 11\n",
        buffers: &[&[0, 0, 0, 0], &[], &[], &[0], &[], &[]],
    },
];

/// Whether a matrix in a format has these buffers and this size, and is read back.
fn is_stored(alloc: Global, matrix: &str, case: &Case) -> Result<bool, AllocError> {
    let mut outside = files(alloc, case.text.as_bytes(), matrix.as_bytes())?;
    let wanted = container(alloc, case.text, case.buffers)?;
    let words = ["convert", "LIB", "A", case.name, "OUT", "-"];
    Ok(
        is_answered(alloc, &mut outside, &words, "ok")
            && has_hops(&outside, case.printed)
            && is_file(&outside, "OUT", wanted.as_slice())
            && is_answered(alloc, &mut outside, &["canon", "OUT", "OUT"], "ok")
            && is_file(&outside, "OUT", matrix.as_bytes()),
    )
}

#[test]
fn the_small_matrix_in_each_format(rt: HostRuntime) -> Result<(), Fail> {
    for case in SAMPLES {
        assert!(rt; is_stored(rt.alloc(), SAMPLE, &case)?, "{}", case.name);
    }
    Ok(())
}

#[test]
fn of_two_equal_rows_the_lower_one_comes_first(rt: HostRuntime) -> Result<(), Fail> {
    for case in TIES {
        assert!(rt; is_stored(rt.alloc(), TIED, &case)?, "{}", case.name);
    }
    Ok(())
}

#[test]
fn the_matrix_without_entries(rt: HostRuntime) -> Result<(), Fail> {
    for case in EMPTIES {
        assert!(rt; is_stored(rt.alloc(), EMPTY, &case)?, "{}", case.name);
    }
    Ok(())
}

/// Whether a file is a container, which `canon` reads and whose text is read again, or is refused as a matrix file or a container.
fn is_read_or_refused(alloc: Global, bytes: &[u8]) -> Result<bool, AllocError> {
    let mut outside = files(alloc, b"", bytes)?;
    let code = answer(alloc, &mut outside, &["canon", "A", "OUT"]).code();
    Ok(if code == 0 {
        is_answered(alloc, &mut outside, &["canon", "OUT", "OUT"], "ok")
    } else {
        (code == 2 || code == 6) && !has_file(&outside, "OUT")
    })
}

/// Whether that holds of the container of these buffers with the lowest bit of any one byte changed.
fn are_read_or_refused(alloc: Global, case: &Case) -> Result<bool, AllocError> {
    let bytes = container(alloc, case.text, case.buffers)?;
    for place in 0..bytes.len() {
        let other = changed(alloc, bytes.as_slice(), place)?;
        if !is_read_or_refused(alloc, other.as_slice())? {
            return Ok(false);
        }
    }
    Ok(true)
}

#[test]
fn containers_with_any_one_byte_changed(rt: HostRuntime) -> Result<(), Fail> {
    for case in SAMPLES {
        assert!(rt; are_read_or_refused(rt.alloc(), &case)?, "{}", case.name);
    }
    Ok(())
}

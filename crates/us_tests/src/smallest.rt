//! The sizes of a matrix in formats and in blocks: what `advise` and `blocks` answer, print and store.

use crate::runs::{files, has_file, has_printed, is_answered, is_file};
use crate::samples::{SAMPLE, library};
use std::alloc::{AllocError, Global};
use std::test::Fail;
use us_outside::{Call, MemoryOutside};

/// One entry in the last row and column of the largest shape.
const LARGEST: &str =
    "%%MatrixMarket matrix coordinate integer general\n2147483647 2147483647 1\n2147483647 2147483647 1\n";

/// The worked library and a matrix.
fn worked(alloc: Global, matrix: &str) -> Result<MemoryOutside, AllocError> {
    let library = library(alloc)?;
    files(alloc, library.as_bytes(), matrix.as_bytes())
}

/// Chains, matrices, and what `advise` prints.
const ADVICE: [(&str, &str, &str); 4] = [
    (
        "coo,csr,dia,ell,dcsr",
        SAMPLE,
        "coo 17\ncsr 16\ndia 26\nell 28\ndcsr 18\nbest csr 16\n",
    ),
    ("csr,coo", LARGEST, "csr over\ncoo 7\nbest coo 7\n"),
    ("csr", LARGEST, "csr over\nbest none\n"),
    // of equal sizes the first is told
    ("dcsr,csc", SAMPLE, "dcsr 18\ncsc 18\nbest dcsr 18\n"),
];

#[test]
fn formats_are_compared(rt: HostRuntime) -> Result<(), Fail> {
    let alloc = rt.alloc();
    for (chain, matrix, printed) in ADVICE {
        let mut outside = worked(alloc, matrix)?;
        let words = ["advise", "LIB", "A", chain];
        assert!(rt; is_answered(alloc, &mut outside, &words, "ok"));
        assert!(rt; has_printed(&outside, printed.as_bytes()), "{chain}");
    }
    Ok(())
}

/// The declaration of blocks of one row and one column.
const BEST: &str = "format best {\n  map (i / 1, j / 1, i % 1, j % 1)\n  trim 1\n  merge 1\n}\n";

/// Lines that `blocks` prints of the small matrix: its block of 4 by 3 is that of 3 by 3, since there are three rows.
const SIZES: [&str; 4] = ["\n1 3 25\n", "\n2 2 41\n", "\n3 3 26\n", "\n4 3 26\n"];

/// Whether these lines were printed, between those of the first block and of the best.
fn has_sizes(outside: &MemoryOutside) -> bool {
    let Ok(printed) = str::from_utf8(outside.printed()) else {
        return false;
    };
    for size in SIZES {
        if !printed.contains(size) {
            return false;
        }
    }
    printed.starts_with("1 1 22\n") && printed.ends_with("\nbest 1 1 22\n")
}

#[test]
fn blocks_are_compared(rt: HostRuntime) -> Result<(), Fail> {
    let alloc = rt.alloc();
    let mut outside = worked(alloc, SAMPLE)?;
    assert!(rt; is_answered(alloc, &mut outside, &["blocks", "A", "OUT"], "ok"));
    assert!(rt; is_file(&outside, "OUT", BEST.as_bytes()));
    assert!(rt; has_sizes(&outside));
    Ok(())
}

/// Command lines, a matrix, and the answer's line.
const REFUSED: [(&[&str], &str, &str); 7] = [
    (&["advise", "LIB", "A"], SAMPLE, "words"),
    (&["advise", "LIB", "A", "csr,mtx"], SAMPLE, "words"),
    (
        &["advise", "LIB", "A", "csr,nope"],
        SAMPLE,
        "unknown name 2",
    ),
    (
        &["advise", "LIB", "MISSING", "csr"],
        SAMPLE,
        "read fault IN",
    ),
    (&["blocks", "A"], SAMPLE, "words"),
    (&["blocks", "MISSING", "OUT"], SAMPLE, "read fault IN"),
    (&["blocks", "A", "OUT"], LARGEST, "too large 1"),
];

#[test]
fn refused_comparisons_store_nothing(rt: HostRuntime) -> Result<(), Fail> {
    let alloc = rt.alloc();
    for (words, matrix, line) in REFUSED {
        let mut outside = worked(alloc, matrix)?;
        assert!(rt; is_answered(alloc, &mut outside, words, line), "{line}");
        assert!(rt; has_printed(&outside, b""));
        assert!(rt; !has_file(&outside, "OUT"));
    }
    Ok(())
}

/// Whether a comparison is answered so where the first call of a kind fails.
fn fails(alloc: Global, call: Call, words: &[&str], line: &str) -> Result<bool, AllocError> {
    let mut outside = worked(alloc, SAMPLE)?;
    outside.fail(call, 1, 0)?;
    Ok(is_answered(alloc, &mut outside, words, line))
}

#[test]
fn a_comparison_tells_which_file_failed(rt: HostRuntime) -> Result<(), Fail> {
    let alloc = rt.alloc();
    let advise = ["advise", "LIB", "A", "csr"];
    let blocks = ["blocks", "A", "OUT"];
    assert!(rt; fails(alloc, Call::Fetch, &advise, "read fault FORMATS")?);
    assert!(rt; fails(alloc, Call::Print, &advise, "write fault PRINT")?);
    assert!(rt; fails(alloc, Call::Fetch, &blocks, "read fault IN")?);
    assert!(rt; fails(alloc, Call::Store, &blocks, "write fault OUT")?);
    assert!(rt; fails(alloc, Call::Print, &blocks, "write fault PRINT")?);
    Ok(())
}

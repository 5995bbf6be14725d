//! Matrices that a seed gives, and their way through a chain: what `generate` answers and prints.

use crate::runs::{are_hops, files, has_printed, is_answered};
use crate::samples::{SAMPLE, library};
use std::alloc::{AllocError, Global};
use std::test::Fail;
use us_outside::{Call, MemoryOutside};

/// The worked library.
fn worked(alloc: Global) -> Result<MemoryOutside, AllocError> {
    let library = library(alloc)?;
    files(alloc, library.as_bytes(), SAMPLE.as_bytes())
}

/// Command lines, the hops that they print but for the steps, and the last line. Of seed 1 the numbers begin 48271, 182605794,
/// 1291394886, 1914720637, 2078669041, 407355683: with 3 rows and 4 columns the first two entries are -93 in row 1 and column
/// 2, and 463 in row 1 and column 1, counted from 0.
const PRINTED: [(&[&str], &str, &str); 4] = [
    (
        &["generate", "1", "3", "4", "2", "csr", "LIB"],
        "csr 13\n",
        "3 4 2 370\n",
    ),
    (
        &["generate", "1", "3", "4", "1", "csr,coo", "LIB"],
        "csr 10\ncoo 7\n",
        "3 4 1 -93\n",
    ),
    (
        &["generate", "2147483646", "3", "4", "0", "csr", "LIB"],
        "csr 7\n",
        "3 4 0 0\n",
    ),
    (
        &[
            "generate",
            "1",
            "2147483647",
            "2147483647",
            "2",
            "coo",
            "LIB",
        ],
        "coo 12\n",
        "2147483647 2147483647 2 370\n",
    ),
];

/// A matrix of 199900 entries in 49038 rows, by the numbers of seed 1. In `csr` and `csc` there are 50001 places where a row or
/// column begins, and 50000 rows or columns; in `dcsr` 49039 and 49038 of those that have entries, and 2 cells more.
const LARGE: [&str; 7] = [
    "generate",
    "1",
    "50000",
    "50000",
    "200000",
    "csr,dcsr,csc",
    "LIB",
];

#[test]
fn a_large_matrix_is_the_same_each_time(rt: HostRuntime) -> Result<(), Fail> {
    let alloc = rt.alloc();
    let mut once = worked(alloc)?;
    assert!(rt; is_answered(alloc, &mut once, &LARGE, "ok"));
    assert!(rt;
        is_printed(
            &once,
            "csr 699701\ndcsr 746817\ncsc 699701\n",
            "50000 50000 199900 -13379\n"
        )
    );
    let mut again = worked(alloc)?;
    assert!(rt; is_answered(alloc, &mut again, &LARGE, "ok"));
    assert!(rt; has_printed(&again, once.printed()));
    Ok(())
}

/// Whether the names and sizes of these hops were printed, with their steps, and behind them a last line.
fn is_printed(outside: &MemoryOutside, hops: &str, last: &str) -> bool {
    let Ok(text) = str::from_utf8(outside.printed()) else {
        return false;
    };
    match text.strip_suffix(last) {
        Some(front) => are_hops(front, hops),
        None => false,
    }
}

#[test]
fn seeds_give_their_matrices(rt: HostRuntime) -> Result<(), Fail> {
    for (words, hops, last) in PRINTED {
        let mut outside = worked(rt.alloc())?;
        assert!(rt; is_answered(rt.alloc(), &mut outside, words, "ok"));
        assert!(rt; is_printed(&outside, hops, last), "{last}");
    }
    Ok(())
}

/// Command lines that are refused, and the answer's line.
const REFUSED: [(&[&str], &str); 10] = [
    (&["generate", "1", "3", "4", "2", "csr"], "words"),
    (&["generate", "0", "3", "4", "2", "csr", "LIB"], "words"),
    (
        &["generate", "2147483647", "3", "4", "2", "csr", "LIB"],
        "words",
    ),
    (&["generate", "1", "0", "4", "2", "csr", "LIB"], "words"),
    (
        &["generate", "1", "3", "4", "8388609", "csr", "LIB"],
        "words",
    ),
    (&["generate", "-1", "3", "4", "2", "csr", "LIB"], "words"),
    (&["generate", "1", "3", "4", "2", "csr,mtx", "LIB"], "words"),
    (
        &["generate", "1", "3", "4", "2", "nope", "LIB"],
        "unknown name 1",
    ),
    (
        &["generate", "1", "3", "4", "2", "csr", "MISSING"],
        "read fault FORMATS",
    ),
    (
        &["generate", "1", "2147483647", "4", "2", "coo,csr", "LIB"],
        "too large 2",
    ),
];

#[test]
fn refused_seeds_print_nothing(rt: HostRuntime) -> Result<(), Fail> {
    for (words, line) in REFUSED {
        let mut outside = worked(rt.alloc())?;
        assert!(rt;
            is_answered(rt.alloc(), &mut outside, words, line),
            "{line}"
        );
        assert!(rt; has_printed(&outside, b""));
    }
    Ok(())
}

#[test]
fn a_failed_print_is_told(rt: HostRuntime) -> Result<(), Fail> {
    let mut outside = worked(rt.alloc())?;
    outside.fail(Call::Print, 1, 0)?;
    let words = ["generate", "1", "3", "4", "2", "csr", "LIB"];
    assert!(rt; is_answered(rt.alloc(), &mut outside, &words, "write fault PRINT"));
    Ok(())
}

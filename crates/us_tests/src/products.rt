//! Products with a dense operand: what `spmv` and `spmm` answer, print, store and list.

use crate::runs::{files, has_file, has_hops, has_printed, is_answered, is_file};
use crate::samples::{EMPTY, SAMPLE, TRI, library};
use std::alloc::{AllocError, Global};
use std::test::Fail;
use us_outside::{Call, MemoryOutside};

/// A vector of four cells.
const VECTOR: &str = "%%MatrixMarket matrix array integer general\n4 1\n1\n2\n3\n4\n";

/// The small matrix times the vector: 5 + 6, 0 and -14.
const TIMES_VECTOR: &str = "%%MatrixMarket matrix array integer general\n3 1\n11\n0\n-14\n";

/// The vector, and a second column.
const COLUMNS: &str = "%%MatrixMarket matrix array integer general\n4 2\n1\n2\n3\n4\n0\n1\n0\n-1\n";

/// The small matrix times both columns.
const TIMES_COLUMNS: &str =
    "%%MatrixMarket matrix array integer general\n3 2\n11\n0\n-14\n0\n0\n-7\n";

/// A vector of three cells.
const SHORT: &str = "%%MatrixMarket matrix array integer general\n3 1\n1\n2\n3\n";

/// Two columns of three cells.
const SHORT_COLUMNS: &str = "%%MatrixMarket matrix array integer general\n3 2\n1\n2\n3\n4\n5\n6\n";

/// Three rows of zeros.
const ZEROS: &str = "%%MatrixMarket matrix array integer general\n3 1\n0\n0\n0\n";

/// The worked library and one more, a matrix, and an operand as X.
fn worked(alloc: Global, matrix: &str, operand: &str) -> Result<MemoryOutside, AllocError> {
    let mut library = library(alloc)?;
    library.push_str(TRI)?;
    let mut outside = files(alloc, library.as_bytes(), matrix.as_bytes())?;
    outside.put("X", operand.as_bytes())?;
    Ok(outside)
}

/// A command, a chain, a matrix and an operand, what is printed but for the steps, and what is stored.
#[derive(Clone, Copy)]
struct Multiplied {
    command: &'static str,
    chain: &'static str,
    matrix: &'static str,
    operand: &'static str,
    printed: &'static str,
    product: &'static str,
}

/// Chains of formats, and what `spmv` prints of the small matrix and the vector in each of them.
const IN_FORMATS: [(&str, &str); 14] = [
    ("csr", "csr 16\nspmv 3\n"),
    ("csc", "csc 18\nspmv 3\n"),
    ("coo", "coo 17\nspmv 3\n"),
    ("dcsr", "dcsr 18\nspmv 3\n"),
    ("bcsr", "bcsr 41\nspmv 3\n"),
    ("dia", "dia 26\nspmv 3\n"),
    ("ell", "ell 28\nspmv 3\n"),
    ("jds", "jds 31\nspmv 3\n"),
    ("cisr", "cisr 25\nspmv 3\n"),
    ("aos", "aos 17\nspmv 3\n"),
    ("hyb", "hyb 23\nspmv 3\n"),
    ("heavy", "heavy 20\nspmv 3\n"),
    ("tri", "tri 21\nspmv 3\n"),
    ("csr,dia", "csr 16\ndia 26\nspmv 3\n"),
];

const PRODUCTS: [Multiplied; 4] = [
    Multiplied {
        command: "spmm",
        chain: "csr",
        matrix: SAMPLE,
        operand: VECTOR,
        printed: "csr 16\nspmm 3\n",
        product: TIMES_VECTOR,
    },
    Multiplied {
        command: "spmm",
        chain: "csr",
        matrix: SAMPLE,
        operand: COLUMNS,
        printed: "csr 16\nspmm 6\n",
        product: TIMES_COLUMNS,
    },
    Multiplied {
        command: "spmm",
        chain: "csr",
        matrix: EMPTY,
        operand: VECTOR,
        printed: "csr 7\nspmm 3\n",
        product: ZEROS,
    },
    // 2^62 times 4 is 0 modulo 2^64
    Multiplied {
        command: "spmv",
        chain: "coo",
        matrix: "%%MatrixMarket matrix coordinate integer general\n1 1 1\n1 1 4611686018427387904\n",
        operand: "%%MatrixMarket matrix array integer general\n1 1\n4\n",
        printed: "coo 7\nspmv 1\n",
        product: "%%MatrixMarket matrix array integer general\n1 1\n0\n",
    },
];

/// Whether a command prints and stores this, and leaves the other files as they are.
fn is_multiplied(alloc: Global, wanted: &Multiplied) -> Result<bool, AllocError> {
    let mut outside = worked(alloc, wanted.matrix, wanted.operand)?;
    let words = [wanted.command, "LIB", "A", wanted.chain, "X", "OUT", "-"];
    Ok(
        is_answered(alloc, &mut outside, &words, "ok")
            && has_hops(&outside, wanted.printed)
            && is_file(&outside, "OUT", wanted.product.as_bytes())
            && is_file(&outside, "A", wanted.matrix.as_bytes())
            && is_file(&outside, "X", wanted.operand.as_bytes()),
    )
}

#[test]
fn each_format_gives_the_same_product(rt: HostRuntime) -> Result<(), Fail> {
    for (chain, printed) in IN_FORMATS {
        let wanted = Multiplied {
            command: "spmv",
            chain,
            matrix: SAMPLE,
            operand: VECTOR,
            printed,
            product: TIMES_VECTOR,
        };
        assert!(rt; is_multiplied(rt.alloc(), &wanted)?, "{chain}");
    }
    Ok(())
}

#[test]
fn products_are_those_worked_out_by_hand(rt: HostRuntime) -> Result<(), Fail> {
    for wanted in PRODUCTS {
        assert!(rt; is_multiplied(rt.alloc(), &wanted)?, "{}", wanted.chain);
    }
    Ok(())
}

/// Command lines, the operand, and the answer's line.
const REFUSED: [(&[&str], &str, &str); 11] = [
    (&["spmv", "LIB", "A", "csr", "X", "OUT"], VECTOR, "words"),
    (
        &["spmv", "LIB", "A", "csr,mtx", "X", "OUT", "-"],
        VECTOR,
        "words",
    ),
    (
        &["spmm", "LIB", "A", "mtx", "X", "OUT", "-"],
        VECTOR,
        "words",
    ),
    (
        &["spmv", "LIB", "A", "csr", "X", "OUT", "-"],
        SHORT,
        "operand rows 3 4",
    ),
    (
        &["spmv", "LIB", "A", "csr", "X", "OUT", "-"],
        SHORT_COLUMNS,
        "operand rows 3 4",
    ),
    (
        &["spmv", "LIB", "A", "csr", "X", "OUT", "-"],
        COLUMNS,
        "operand columns 2 1",
    ),
    (
        &["spmm", "LIB", "A", "csr", "X", "OUT", "-"],
        SHORT_COLUMNS,
        "operand rows 3 4",
    ),
    (
        &["spmv", "LIB", "A", "csr", "X", "OUT", "-"],
        SAMPLE,
        "matrix X unsupported word 3",
    ),
    (
        &["spmv", "LIB", "A", "csr", "MISSING", "OUT", "-"],
        VECTOR,
        "read fault X",
    ),
    (
        &["spmv", "LIB", "MISSING", "csr", "X", "OUT", "-"],
        VECTOR,
        "read fault IN",
    ),
    (
        &["spmv", "LIB", "A", "csr,nope", "MISSING", "OUT", "-"],
        VECTOR,
        "unknown name 2",
    ),
];

/// Whether a command line is answered by this line, and nothing is printed or stored.
fn is_refused(
    alloc: Global,
    words: &[&str],
    operand: &str,
    line: &str,
) -> Result<bool, AllocError> {
    let mut outside = worked(alloc, SAMPLE, operand)?;
    Ok(
        is_answered(alloc, &mut outside, words, line)
            && has_printed(&outside, b"")
            && !has_file(&outside, "OUT"),
    )
}

#[test]
fn refused_products_store_nothing(rt: HostRuntime) -> Result<(), Fail> {
    for (words, operand, line) in REFUSED {
        assert!(rt; is_refused(rt.alloc(), words, operand, line)?, "{line}");
    }
    Ok(())
}

/// A column of a hundred million rows.
const TALL: &str =
    "%%MatrixMarket matrix coordinate integer general\n100000000 1 1\n100000000 1 7\n";

/// An operand of one cell.
const ONE: &str = "%%MatrixMarket matrix array integer general\n1 1\n3\n";

#[test]
fn a_product_has_at_most_33554432_cells(rt: HostRuntime) -> Result<(), Fail> {
    let alloc = rt.alloc();
    let mut outside = worked(alloc, TALL, ONE)?;
    let behind_one = ["spmv", "LIB", "A", "coo", "X", "OUT", "-"];
    assert!(rt; is_answered(alloc, &mut outside, &behind_one, "too large 2"));
    let behind_two = ["spmv", "LIB", "A", "coo,coo", "X", "OUT", "-"];
    assert!(rt; is_answered(alloc, &mut outside, &behind_two, "too large 3"));
    let above_before = ["spmv", "LIB", "A", "csr", "X", "OUT", "-"];
    assert!(rt; is_answered(alloc, &mut outside, &above_before, "too large 1"));
    Ok(())
}

/// Whether a text stands in a file.
fn has_text(outside: &MemoryOutside, name: &str, text: &str) -> bool {
    let Some(bytes) = outside.file(name) else {
        return false;
    };
    match str::from_utf8(bytes) {
        Ok(found) => found.contains(text),
        Err(_) => false,
    }
}

#[test]
fn a_listing_ends_in_the_kernel(rt: HostRuntime) -> Result<(), Fail> {
    let alloc = rt.alloc();
    let mut alone = worked(alloc, SAMPLE, VECTOR)?;
    let words = ["spmv", "LIB", "A", "csr", "X", "OUT", "-"];
    assert!(rt; is_answered(alloc, &mut alone, &words, "ok"));
    let mut outside = worked(alloc, SAMPLE, VECTOR)?;
    let words = ["spmv", "LIB", "A", "csr", "X", "OUT", "L"];
    assert!(rt; is_answered(alloc, &mut outside, &words, "ok"));
    assert!(rt; has_printed(&outside, alone.printed()));
    assert!(rt; is_file(&outside, "OUT", TIMES_VECTOR.as_bytes()));
    assert!(rt; has_text(&outside, "L", "format csr {\n"));
    assert!(rt; has_text(&outside, "L", "}\ndense 3 1\ncode 4 {\n"));
    Ok(())
}

/// Whether a product is answered so where a call of a kind fails, with its listing.
fn fails(alloc: Global, call: Call, nth: u64, line: &str) -> Result<bool, AllocError> {
    let mut outside = worked(alloc, SAMPLE, VECTOR)?;
    outside.fail(call, nth, 0)?;
    let words = ["spmv", "LIB", "A", "csr", "X", "OUT", "L"];
    Ok(is_answered(alloc, &mut outside, &words, line))
}

/// The first fetch from this one on whose failing isn't told by this line, where fewer than eight are told so.
fn first_told_otherwise(alloc: Global, from: u64, line: &str) -> Result<u64, AllocError> {
    for nth in from..from.saturating_add(8) {
        if !fails(alloc, Call::Fetch, nth, line)? {
            return Ok(nth);
        }
    }
    Ok(from)
}

#[test]
fn a_product_tells_which_file_failed(rt: HostRuntime) -> Result<(), Fail> {
    let alloc = rt.alloc();
    let input = first_told_otherwise(alloc, 1, "read fault FORMATS")?;
    assert!(rt; input > 1);
    let operand = first_told_otherwise(alloc, input, "read fault IN")?;
    assert!(rt; operand > input);
    let behind = first_told_otherwise(alloc, operand, "read fault X")?;
    assert!(rt; behind > operand);
    assert!(rt; fails(alloc, Call::Fetch, behind, "ok")?);
    assert!(rt; fails(alloc, Call::Store, 1, "write fault OUT")?);
    assert!(rt; fails(alloc, Call::Store, 2, "write fault LISTING")?);
    assert!(rt; fails(alloc, Call::Print, 1, "write fault PRINT")?);
    Ok(())
}

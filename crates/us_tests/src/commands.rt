//! Whole commands over files in memory: what they answer, print and store.

use crate::runs::{files, has_file, has_hops, has_printed, is_answered, is_file};
use crate::samples::{CONTAINER, SAMPLE, TRI, library};
use std::alloc::{AllocError, Global};
use std::test::Fail;
use us_container::ContainerFault;
use us_judge::Refusal;
use us_mm::MmFault;
use us_outside::{Call, MemoryOutside};
use us_top::{Slot, Status};

/// The worked library and the small matrix.
fn worked(alloc: Global) -> Result<MemoryOutside, AllocError> {
    let library = library(alloc)?;
    files(alloc, library.as_bytes(), SAMPLE.as_bytes())
}

/// Whether a command line is answered by this line and prints this, over the worked library and the small matrix.
fn goes(alloc: Global, texts: &[&str], line: &str, printed: &str) -> Result<bool, AllocError> {
    let mut outside = worked(alloc)?;
    Ok(
        is_answered(alloc, &mut outside, texts, line)
            && has_printed(&outside, printed.as_bytes())
            && is_file(&outside, "A", SAMPLE.as_bytes()),
    )
}

/// Chains of formats, and the size of the small matrix in each of them.
const CHAINS: [(&str, &str); 7] = [
    ("csr,csr", "csr 16\ncsr 16\n"),
    ("mtx", ""),
    ("csr,dia,csc,mtx", "csr 16\ndia 26\ncsc 18\n"),
    ("jds,cisr,ell,mtx", "jds 31\ncisr 25\nell 28\n"),
    (
        "csr,dia,ell,hyb,csc,mtx",
        "csr 16\ndia 26\nell 28\nhyb 23\ncsc 18\n",
    ),
    ("heavy,aos,hyb", "heavy 20\naos 17\nhyb 23\n"),
    (
        "bcsr,cisr,dcsr,jds,coo",
        "bcsr 41\ncisr 25\ndcsr 18\njds 31\ncoo 17\n",
    ),
];

/// Whether a chain prints these sizes, and what it stores is the small matrix.
fn keeps_matrix(alloc: Global, chain: &str, sizes: &str) -> Result<bool, AllocError> {
    let mut outside = worked(alloc)?;
    let words = ["convert", "LIB", "A", chain, "OUT", "-"];
    Ok(
        is_answered(alloc, &mut outside, &words, "ok")
            && has_hops(&outside, sizes)
            && is_answered(alloc, &mut outside, &["canon", "OUT", "OUT"], "ok")
            && is_file(&outside, "OUT", SAMPLE.as_bytes()),
    )
}

#[test]
fn each_chain_prints_its_sizes_and_keeps_the_matrix(rt: HostRuntime) -> Result<(), Fail> {
    for (chain, sizes) in CHAINS {
        assert!(rt; keeps_matrix(rt.alloc(), chain, sizes)?, "{chain}");
    }
    Ok(())
}

/// Whether a chain of so many names is answered by this line.
fn is_long_chain(alloc: Global, count: u32, line: &str) -> Result<bool, AllocError> {
    let mut chain = String::from_str(alloc, "csr")?;
    for _ in 1..count {
        chain.push_str(",csr")?;
    }
    let mut outside = worked(alloc)?;
    let words = ["convert", "LIB", "A", chain.as_str(), "OUT", "-"];
    Ok(is_answered(alloc, &mut outside, &words, line))
}

#[test]
fn a_chain_has_at_most_64_names(rt: HostRuntime) -> Result<(), Fail> {
    assert!(rt; is_long_chain(rt.alloc(), 64, "ok")?);
    assert!(rt; is_long_chain(rt.alloc(), 65, "words")?);
    Ok(())
}

#[test]
fn a_container_has_its_bytes_and_its_lines(rt: HostRuntime) -> Result<(), Fail> {
    let alloc = rt.alloc();
    let mut outside = worked(alloc)?;
    let words = ["convert", "LIB", "A", "csr", "A", "-"];
    assert!(rt; is_answered(alloc, &mut outside, &words, "ok"));
    assert!(rt; is_file(&outside, "A", CONTAINER));
    assert!(rt; is_answered(alloc, &mut outside, &["info", "A"], "ok"));
    let told = b"container 1 csr 3 4 3 16\n0 4\n1 3\n2 3\n";
    assert!(rt; outside.printed().ends_with(told));
    Ok(())
}

/// What `check` prints of the worked library, for 3 rows and 4 columns.
const CHECKED: &str = "csr accepted full[0,2] compressed[0,3]
csc accepted full[0,3] compressed[0,2]
coo accepted listed[0,2] slot[0,3]
dcsr accepted compressed[0,2] compressed[0,3]
bcsr accepted full[0,1] compressed[0,1] full[0,1] full[0,1]
dia accepted compressed[-2,3] full[0,2]
ell accepted full[0,2] full[0,?] slot[0,3]
jds accepted full[0,2] full[0,?] slot[0,3]
cisr accepted full[0,1] full[0,?] compressed[0,3]
aos accepted listed[0,2] slot[0,3]
hyb accepted full[0,2] full[0,?] slot[0,3] | listed[0,2] slot[0,3]
heavy accepted full[0,2] compressed[0,3] | listed[0,2] slot[0,3]
";

/// Command lines that print.
const SHOWN: [(&[&str], &str); 4] = [
    (&["check", "LIB", "3", "4"], CHECKED),
    (&["check", "LIB", "00000000000000000003", "4"], CHECKED),
    (&["info", "A"], "matrix 3 4 3\n"),
    (&["canon", "A", "A"], ""),
];

#[test]
fn commands_print(rt: HostRuntime) -> Result<(), Fail> {
    for (words, printed) in SHOWN {
        assert!(rt; goes(rt.alloc(), words, "ok", printed)?);
    }
    Ok(())
}

/// Command lines that are refused, and the answer's line.
const REFUSED: [(&[&str], &str); 27] = [
    (&[], "words"),
    (&["canon"], "words"),
    (&["canon", "A"], "words"),
    (&["canon", "A", "OUT", "OUT"], "words"),
    (&["Canon", "A", "OUT"], "words"),
    (&["canon", "MISSING", "OUT"], "read fault IN"),
    (&["info"], "words"),
    (&["info", "A", "A"], "words"),
    (&["info", "LIB"], "matrix IN header"),
    (&["check", "LIB", "000000000000000000003", "4"], "words"),
    (&["check", "LIB", "3", "0"], "words"),
    (&["check", "LIB", "2147483648", "4"], "words"),
    (&["check", "LIB", "3", "+4"], "words"),
    (&["check", "LIB", "", "4"], "words"),
    (&["check", "MISSING", "3", "4"], "read fault FORMATS"),
    (&["convert", "LIB", "A", "mtx,csr", "OUT", "-"], "words"),
    (&["convert", "LIB", "A", "csr,,dia", "OUT", "-"], "words"),
    (&["convert", "LIB", "A", "", "OUT", "-"], "words"),
    (&["convert", "LIB", "A", "csr", "OUT"], "words"),
    (&["convert", "LIB", "A", "csr"], "words"),
    // the first step that fails decides
    (
        &["convert", "LIB", "A", "csr,nope", "OUT", "-"],
        "unknown name 2",
    ),
    (
        &["convert", "LIB", "MISSING", "csr", "OUT", "-"],
        "read fault IN",
    ),
    (
        &["convert", "MISSING", "A", "csr", "OUT", "-"],
        "read fault FORMATS",
    ),
    (&["convert", "A", "A", "csr", "OUT", "-"], "formats form 0"),
    (
        &["convert", "A", "MISSING", "csr", "OUT", "-"],
        "formats form 0",
    ),
    (
        &["convert", "LIB", "LIB", "csr", "OUT", "-"],
        "matrix IN header",
    ),
    (
        &["convert", "LIB", "LIB", "mtx", "OUT", "-"],
        "matrix IN header",
    ),
];

#[test]
fn refused_commands_print_nothing(rt: HostRuntime) -> Result<(), Fail> {
    for (words, line) in REFUSED {
        assert!(rt; goes(rt.alloc(), words, line, "")?, "{line}");
    }
    Ok(())
}

/// A library whose second declaration is refused.
const HALVED: &str = "format csr { map (i, j) trim 1 merge 1 } format half { map (i / 2, j) }";

/// Names, the word of the input, and the answer's line: names come first, then rules, then the input.
const HALVES: [(&str, &str, &str); 4] = [
    ("half", "A", "refused name 1 J10 part 1 place 0"),
    ("csr,half", "A", "refused name 2 J10 part 1 place 0"),
    ("half,nope", "A", "unknown name 2"),
    ("half", "MISSING", "refused name 1 J10 part 1 place 0"),
];

/// Whether a chain of that library is answered by this line, and nothing is printed or stored.
fn is_halved(alloc: Global, chain: &str, input: &str, line: &str) -> Result<bool, AllocError> {
    let mut outside = files(alloc, HALVED.as_bytes(), SAMPLE.as_bytes())?;
    let words = ["convert", "LIB", input, chain, "OUT", "-"];
    Ok(
        is_answered(alloc, &mut outside, &words, line)
            && has_printed(&outside, b"")
            && !has_file(&outside, "OUT"),
    )
}

#[test]
fn names_are_found_and_judged_before_the_input_is_read(rt: HostRuntime) -> Result<(), Fail> {
    for (chain, input, line) in HALVES {
        assert!(rt; is_halved(rt.alloc(), chain, input, line)?, "{line}");
    }
    Ok(())
}

/// A matrix of the greatest shape.
const HUGE: &str = "%%MatrixMarket matrix coordinate integer general
2147483647 2147483647 1
2147483647 2147483647 1
";

/// A matrix of many rows, one of which is full.
const LONG: &str = "%%MatrixMarket matrix coordinate integer general
5000000 4 4
1 1 1
1 2 1
1 3 1
1 4 1
";

/// Large matrices, chains, the answer's line, and what is printed.
const LARGE: [(&str, &str, &str, &str); 12] = [
    (HUGE, "coo", "ok", "coo 7\n"),
    (HUGE, "csr", "too large 1", ""),
    (HUGE, "coo,csr", "too large 2", ""),
    (HUGE, "csr,coo", "too large 1", ""),
    (HUGE, "dcsr,aos", "ok", "dcsr 9\naos 7\n"),
    (HUGE, "ell", "too large 1", ""),
    (HUGE, "jds", "too large 1", ""),
    (HUGE, "cisr", "too large 1", ""),
    (HUGE, "aos,hyb", "too large 2", ""),
    (HUGE, "heavy", "too large 1", ""),
    (LONG, "ell", "too large 1", ""),
    (LONG, "dcsr,jds", "too large 2", ""),
];

/// Whether a chain on a large matrix is answered by this line, prints this, and stores only where it is `ok`.
fn goes_large(
    alloc: Global,
    input: &str,
    chain: &str,
    line: &str,
    printed: &str,
) -> Result<bool, AllocError> {
    let library = library(alloc)?;
    let mut outside = files(alloc, library.as_bytes(), input.as_bytes())?;
    let words = ["convert", "LIB", "A", chain, "OUT", "-"];
    Ok(
        is_answered(alloc, &mut outside, &words, line)
            && has_hops(&outside, printed)
            && has_file(&outside, "OUT") == (line == "ok"),
    )
}

#[test]
fn each_hop_is_within_the_limit(rt: HostRuntime) -> Result<(), Fail> {
    for (input, chain, line, printed) in LARGE {
        assert!(rt;
            goes_large(rt.alloc(), input, chain, line, printed)?,
            "{chain}"
        );
    }
    Ok(())
}

/// What `check` says of a library, for 3 rows and 4 columns: the answer's line, and what is printed.
const LIBRARIES: [(&str, &str, &str); 28] = [
    ("# nothing yet\n", "ok", ""),
    ("format", "formats form 6", ""),
    ("format f { }", "formats form 11", ""),
    ("format f { map (i, j) & }", "formats token 22", ""),
    ("format f { map (i, 2147483648) }", "formats too big 19", ""),
    (
        "format f { map (i, j) } format f { map (i, j) }",
        "formats repeated 31",
        "",
    ),
    ("format f { map () }", "ok", "f refused J1 part 1 place 0\n"),
    (
        "format f { map (i, j, z) }",
        "ok",
        "f refused J2 part 1 place 2\n",
    ),
    (
        "format f { let k = reorder(i + j) map (i, j) }",
        "ok",
        "f refused J3 part 1 place 0\n",
    ),
    (
        "format f { let a, b = schedule(i) into 65 map (a, b, j) }",
        "ok",
        "f refused J4 part 1 place 0\n",
    ),
    (
        "format f { let s = sum(i) map (s, i, j) }",
        "ok",
        "f refused J5 part 1 place 1\n",
    ),
    (
        "format f { let k = enumerate(i) map (i, k + 1, j) }",
        "ok",
        "f refused J6 part 1 place 2\n",
    ),
    (
        "format f { map (i, j) trim 2 }",
        "ok",
        "f refused J7 part 1 place 2\n",
    ),
    (
        "format f { map (i, j) merge 1 }",
        "ok",
        "f refused J8 part 1 place 2\n",
    ),
    (
        "format f { map (i, j) trim 0 }",
        "ok",
        "f refused J9 part 1 place 1\n",
    ),
    (
        "format f { map (i / 2, j) }",
        "ok",
        "f refused J10 part 1 place 0\n",
    ),
    (
        "format f { map (i, j / 2) }",
        "ok",
        "f refused J11 part 1 place 0\n",
    ),
    (
        "format f { map (i, j) trim 1 merge 1 pack (0, 1) }",
        "ok",
        "f refused J12 part 1 place 4\n",
    ),
    (
        "format f { let p = reorder(i) part when p < 2 { map (i, j) } rest { map (i, j) } }",
        "ok",
        "f refused J13 part 0 place 0\n",
    ),
    (
        "format f { let n = sum(i) part when n < 2 { map (i, j) } rest { map (i, j) } }",
        "ok",
        "f accepted full[0,2] full[0,3] | full[0,2] full[0,3]\n",
    ),
    (
        "format tri { let k = enumerate(i) part when k < 1 { map (i, j) trim 0, 1 } part when z < 2 { map (i, j) trim 0, 1 } rest { map (i, j) trim 0, 1 } }",
        "ok",
        "tri refused J2 part 0 place 2\n",
    ),
    (
        "format f { map (i % 4, i / 4, j) }",
        "ok",
        "f accepted full[0,2] full[0,0] full[0,3]\n",
    ),
    (
        TRI,
        "ok",
        "tri accepted listed[0,2] slot[0,3] | listed[0,2] slot[0,3] | listed[0,2] slot[0,3]\n",
    ),
    // a rank ends with the shape, a count and a slot with the data, and a lane with the number of lanes
    (
        "format f { let p = reorder(j) map (p, i) trim 1 merge 1 }",
        "ok",
        "f accepted full[0,3] compressed[0,2]\n",
    ),
    (
        "format f { let a, b = schedule(j) into 3 map (b, a, i) trim 2 }",
        "ok",
        "f accepted full[0,?] full[0,2] listed[0,2]\n",
    ),
    (
        "format f { let n = sum(i) let k = enumerate(j) map (i, j, k) trim 0 merge 0 }",
        "ok",
        "f accepted compressed[0,2] full[0,3] full[0,?]\n",
    ),
    // a variable of the head is none of the part
    (
        "format f { let k = enumerate(i) part when k < 1 { map (i, k, j) } rest { map (i, j) } }",
        "ok",
        "f refused J2 part 1 place 1\n",
    ),
    // of a later part the first one that breaks a rule counts
    (
        "format f { let k = enumerate(i) part when k < 1 { map (i, j) } part when k < 2 { map (i) } rest { map () } }",
        "ok",
        "f refused J11 part 2 place 0\n",
    ),
];

/// Whether `check` says this of a library.
fn is_checked(alloc: Global, library: &str, line: &str, printed: &str) -> Result<bool, AllocError> {
    let mut outside = files(alloc, library.as_bytes(), b"")?;
    Ok(
        is_answered(alloc, &mut outside, &["check", "LIB", "3", "4"], line)
            && has_printed(&outside, printed.as_bytes()),
    )
}

#[test]
fn each_rule_and_each_fault_has_its_line(rt: HostRuntime) -> Result<(), Fail> {
    for (library, line, printed) in LIBRARIES {
        assert!(rt;
            is_checked(rt.alloc(), library, line, printed)?,
            "{library}"
        );
    }
    Ok(())
}

/// Whether a command line is answered by this line where the first call of a kind fails after so many bytes.
fn fails(
    alloc: Global,
    call: Call,
    texts: &[&str],
    line: &str,
    stored: &[u8],
    printed: &[u8],
) -> Result<bool, AllocError> {
    let mut outside = worked(alloc)?;
    outside.fail(call, 1, 4)?;
    Ok(
        is_answered(alloc, &mut outside, texts, line)
            && is_file(&outside, "OUT", stored) == !stored.is_empty()
            && has_printed(&outside, printed),
    )
}

#[test]
fn a_call_that_fails_leaves_the_rest(rt: HostRuntime) -> Result<(), Fail> {
    let alloc = rt.alloc();
    let words = ["convert", "LIB", "A", "csr", "OUT", "-"];
    assert!(rt; fails(alloc, Call::Fetch, &words, "read fault FORMATS", b"", b"")?);
    assert!(rt; fails(alloc, Call::Store, &words, "write fault OUT", b"USPA", b"")?);
    assert!(rt;
        fails(
            alloc,
            Call::Print,
            &words,
            "write fault PRINT",
            CONTAINER,
            b"csr "
        )?
    );
    let words = ["check", "LIB", "3", "4"];
    assert!(rt;
        fails(
            alloc,
            Call::Print,
            &words,
            "write fault PRINT",
            b"",
            b"csr "
        )?
    );
    let words = ["canon", "A", "OUT"];
    assert!(rt; fails(alloc, Call::Fetch, &words, "read fault IN", b"", b"")?);
    assert!(rt; fails(alloc, Call::Store, &words, "write fault OUT", b"%%Ma", b"")?);
    Ok(())
}

/// Answers, each with its number and its line.
const ANSWERS: [(Status, u8, &str); 12] = [
    (Status::Done, 0, "ok"),
    (Status::Words, 1, "words"),
    (
        Status::Matrix {
            slot: Slot::Operand,
            fault: MmFault::OutOfShape { line: 3 },
        },
        2,
        "matrix X out of shape line 3",
    ),
    (Status::UnknownName { k: 64 }, 4, "unknown name 64"),
    (
        Status::Refused {
            k: 2,
            why: Refusal {
                rule: 13,
                part: 0,
                place: 1,
            },
        },
        5,
        "refused name 2 J13 part 0 place 1",
    ),
    (
        Status::Container(ContainerFault::Cell {
            buffer: u64::MAX,
            x: u64::MAX,
            have: i64::MIN,
            want: i64::MIN,
        }),
        6,
        "container cell 18446744073709551615 18446744073709551615 -9223372036854775808 -9223372036854775808",
    ),
    (
        Status::Matrix {
            slot: Slot::Input,
            fault: MmFault::Missing {
                found: 1,
                wanted: 2,
            },
        },
        2,
        "matrix IN missing 1 of 2",
    ),
    (Status::TooLarge { hop: 3 }, 7, "too large 3"),
    (Status::ReadFault { slot: Slot::Input }, 12, "read fault IN"),
    (
        Status::WriteFault { slot: Slot::Print },
        13,
        "write fault PRINT",
    ),
    (
        Status::TooLong {
            slot: Slot::Formats,
        },
        14,
        "too long FORMATS",
    ),
    (Status::Memory, 15, "memory"),
];

/// Whether an answer has this number and this line.
fn is_told(status: Status, code: u8, line: &str) -> bool {
    status.code() == code && status.line().as_str() == line
}

#[test]
fn each_answer_has_its_number_and_its_line(rt: HostRuntime) {
    for (status, code, line) in ANSWERS {
        assert!(rt; is_told(status, code, line), "{line}");
    }
}

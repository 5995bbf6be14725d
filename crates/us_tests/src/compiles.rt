//! Programs that are compiled for two formats, stored, and run.

use crate::runs::{files, has_file, has_printed, is_answered};
use crate::samples::{CONTAINER, COO, library};
use std::alloc::{AllocError, Global};
use std::test::Fail;
use us_outside::{Call, MemoryOutside};

/// The worked library, and the container of the small matrix in `csr`.
fn worked(alloc: Global) -> Result<MemoryOutside, AllocError> {
    let library = library(alloc)?;
    files(alloc, library.as_bytes(), CONTAINER)
}

/// Command lines that compile nothing, and the answer's line.
const REFUSED: [(&[&str], &str); 13] = [
    (&["compile", "LIB", "3", "4", "csr", "ell"], "words"),
    (
        &["compile", "LIB", "3", "4", "csr", "ell", "OUT", "-"],
        "words",
    ),
    (&["compile", "LIB", "0", "4", "csr", "ell", "OUT"], "words"),
    (
        &["compile", "LIB", "3", "2147483648", "csr", "ell", "OUT"],
        "words",
    ),
    (&["compile", "LIB", "3", "4", "", "ell", "OUT"], "words"),
    (&["compile", "LIB", "3", "4", "csr", "", "OUT"], "words"),
    (
        &["compile", "LIB", "3", "4", "csr,csc", "ell", "OUT"],
        "words",
    ),
    (&["compile", "LIB", "3", "4", "csr", "ell,", "OUT"], "words"),
    (&["compile", "LIB", "3", "4", "mtx", "ell", "OUT"], "words"),
    (&["compile", "LIB", "3", "4", "csr", "mtx", "OUT"], "words"),
    (
        &["compile", "LIB", "3", "4", "n!pe", "nor", "OUT"],
        "unknown name 1",
    ),
    (
        &["compile", "LIB", "3", "4", "csr", "nope", "OUT"],
        "unknown name 2",
    ),
    (
        &["compile", "MISSING", "3", "4", "csr", "ell", "OUT"],
        "read fault FORMATS",
    ),
];

/// Whether a command line is answered by this line, and nothing is printed or stored.
fn is_refused(outside: &mut MemoryOutside, alloc: Global, texts: &[&str], line: &str) -> bool {
    is_answered(alloc, outside, texts, line)
        && has_printed(outside, b"")
        && !has_file(outside, "OUT")
}

#[test]
fn refused_pairs_store_nothing(rt: HostRuntime) -> Result<(), Fail> {
    let mut outside = worked(rt.alloc())?;
    for (words, line) in REFUSED {
        assert!(rt; is_refused(&mut outside, rt.alloc(), words, line), "{line}");
    }
    Ok(())
}

/// A library whose second declaration is refused.
const HALVED: &str = "format csr { map (i, j) trim 1 merge 1 } format half { map (i / 2, j) }";

/// A source and a target, and the answer's line: names come first, then rules.
const HALVES: [(&str, &str, &str); 4] = [
    ("half", "csr", "refused name 1 J10 part 1 place 0"),
    ("csr", "half", "refused name 2 J10 part 1 place 0"),
    ("half", "half", "refused name 1 J10 part 1 place 0"),
    ("half", "nope", "unknown name 2"),
];

#[test]
fn both_names_are_found_before_both_are_judged(rt: HostRuntime) -> Result<(), Fail> {
    let mut outside = files(rt.alloc(), HALVED.as_bytes(), CONTAINER)?;
    for (source, target, line) in HALVES {
        let words = ["compile", "LIB", "3", "4", source, target, "OUT"];
        assert!(rt;
            is_refused(&mut outside, rt.alloc(), &words, line),
            "{line}"
        );
    }
    Ok(())
}

/// Whether two files hold the same bytes.
fn are_alike(outside: &MemoryOutside, one: &str, other: &str) -> bool {
    match (outside.file(one), outside.file(other)) {
        (Some(one), Some(other)) => one == other,
        _ => false,
    }
}

/// Whether the unit from `csr` to a format begins with a text, and gives what the conversion stores.
fn is_compiled(alloc: Global, target: &str, text: &str) -> Result<bool, AllocError> {
    let mut outside = worked(alloc)?;
    let compile = ["compile", "LIB", "3", "4", "csr", target, "UNIT"];
    let run = ["run", "UNIT", "A", "B", "1000000"];
    let convert = ["convert", "LIB", "A", target, "C", "-"];
    Ok(
        is_answered(alloc, &mut outside, &compile, "ok")
            && has_printed(&outside, b"")
            && match outside.file("UNIT") {
                Some(unit) => unit.starts_with(text.as_bytes()),
                None => false,
            }
            && is_answered(alloc, &mut outside, &run, "ok")
            && is_answered(alloc, &mut outside, &convert, "ok")
            && are_alike(&outside, "B", "C"),
    )
}

#[test]
fn a_unit_gives_what_the_conversion_stores(rt: HostRuntime) -> Result<(), Fail> {
    let alloc = rt.alloc();
    assert!(rt; is_compiled(alloc, "coo", COO)?);
    assert!(rt; is_compiled(alloc, "ell", "format ell {\n")?);
    Ok(())
}

/// Whether a compilation is answered so where the first call of a kind fails.
fn fails(alloc: Global, call: Call, line: &str) -> Result<bool, AllocError> {
    let mut outside = worked(alloc)?;
    outside.fail(call, 1, 0)?;
    let words = ["compile", "LIB", "3", "4", "csr", "ell", "OUT"];
    Ok(is_answered(alloc, &mut outside, &words, line))
}

#[test]
fn a_compilation_tells_which_file_failed(rt: HostRuntime) -> Result<(), Fail> {
    let alloc = rt.alloc();
    assert!(rt; fails(alloc, Call::Fetch, "read fault FORMATS")?);
    assert!(rt; fails(alloc, Call::Store, "write fault OUT")?);
    assert!(rt; fails(alloc, Call::Print, "ok")?);
    Ok(())
}

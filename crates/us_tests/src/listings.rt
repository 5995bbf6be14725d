//! Listings of the loops that convert a matrix.

use crate::runs::{files, has_printed, is_answered, is_file};
use crate::samples::{CONTAINER, SAMPLE, library};
use std::alloc::{AllocError, Global};
use std::test::Fail;
use us_outside::{Call, MemoryOutside};

/// The worked library and the small matrix.
fn worked(alloc: Global) -> Result<MemoryOutside, AllocError> {
    let library = library(alloc)?;
    files(alloc, library.as_bytes(), SAMPLE.as_bytes())
}

/// Whether two lines say that a hop to `csr` of size 16 took the steps of a run.
fn are_steps(text: &str) -> bool {
    let Some(text) = text.strip_prefix("csr 16 ") else {
        return false;
    };
    let Some((hop, run)) = text.split_once('\n') else {
        return false;
    };
    let Some(run) = run.strip_prefix("steps ") else {
        return false;
    };
    match run.split_once('\n') {
        Some((run, rest)) => hop == run && rest.is_empty(),
        None => false,
    }
}

#[test]
fn the_listed_unit_gives_the_container_in_the_printed_steps(rt: HostRuntime) -> Result<(), Fail> {
    let alloc = rt.alloc();
    let mut outside = worked(alloc)?;
    let convert = ["convert", "LIB", "A", "csr", "OUT", "LIST"];
    assert!(rt; is_answered(alloc, &mut outside, &convert, "ok"));
    assert!(rt; is_file(&outside, "OUT", CONTAINER));
    let run = ["run", "LIST", "A", "B", "1000000"];
    assert!(rt; is_answered(alloc, &mut outside, &run, "ok"));
    assert!(rt; is_file(&outside, "B", CONTAINER));
    match str::from_utf8(outside.printed()) {
        Ok(text) => assert!(rt; are_steps(text)),
        Err(_) => assert!(rt; false),
    }
    Ok(())
}

/// What a conversion through a chain prints, with a listing of this name.
fn printed_by(alloc: Global, listing: &str) -> Result<Vec<u8>, AllocError> {
    let mut outside = worked(alloc)?;
    let words = ["convert", "LIB", "A", "csr,dia,csc,mtx", "OUT", listing];
    is_answered(alloc, &mut outside, &words, "ok");
    Vec::from_slice(alloc, outside.printed())
}

#[test]
fn the_same_steps_are_printed_with_no_listing(rt: HostRuntime) -> Result<(), Fail> {
    let alloc = rt.alloc();
    let listed = printed_by(alloc, "LIST")?;
    let alone = printed_by(alloc, "-")?;
    assert!(rt; listed.len() > 20);
    assert!(rt; listed.as_slice() == alone.as_slice());
    Ok(())
}

#[test]
fn no_hop_is_listed_as_nothing(rt: HostRuntime) -> Result<(), Fail> {
    let alloc = rt.alloc();
    let mut outside = worked(alloc)?;
    let words = ["convert", "LIB", "A", "mtx", "OUT", "LIST"];
    assert!(rt; is_answered(alloc, &mut outside, &words, "ok"));
    assert!(rt; is_file(&outside, "OUT", SAMPLE.as_bytes()));
    assert!(rt; is_file(&outside, "LIST", b""));
    assert!(rt; has_printed(&outside, b""));
    Ok(())
}

#[test]
fn of_one_name_for_both_the_listing_stays(rt: HostRuntime) -> Result<(), Fail> {
    let alloc = rt.alloc();
    let mut outside = worked(alloc)?;
    let words = ["convert", "LIB", "A", "csr", "OUT", "OUT"];
    assert!(rt; is_answered(alloc, &mut outside, &words, "ok"));
    let run = ["run", "OUT", "A", "B", "1000000"];
    assert!(rt; is_answered(alloc, &mut outside, &run, "ok"));
    assert!(rt; is_file(&outside, "B", CONTAINER));
    Ok(())
}

/// Whether the listing holds some unit.
fn is_listed(outside: &MemoryOutside) -> bool {
    match outside.file("LIST") {
        Some(bytes) => !bytes.is_empty(),
        None => false,
    }
}

/// Whether a conversion with a listing is answered so where the nth call of a kind fails and keeps no bytes, and what then stands.
fn fails(
    alloc: Global,
    call: Call,
    nth: u64,
    line: &str,
    stored: bool,
    listed: bool,
) -> Result<bool, AllocError> {
    let mut outside = worked(alloc)?;
    outside.fail(call, nth, 0)?;
    let words = ["convert", "LIB", "A", "csr", "OUT", "LIST"];
    Ok(
        is_answered(alloc, &mut outside, &words, line)
            && is_file(&outside, "OUT", CONTAINER) == stored
            && is_listed(&outside) == listed
            && has_printed(&outside, b""),
    )
}

#[test]
fn the_listing_is_stored_behind_the_output(rt: HostRuntime) -> Result<(), Fail> {
    let alloc = rt.alloc();
    assert!(rt; fails(alloc, Call::Store, 1, "write fault OUT", false, false)?);
    assert!(rt; fails(alloc, Call::Store, 2, "write fault LISTING", true, false)?);
    assert!(rt; fails(alloc, Call::Print, 1, "write fault PRINT", true, true)?);
    Ok(())
}

//! Containers that were changed, and the answers to reading them.

use crate::runs::{files, has_file, is_answered};
use crate::samples::{AOS, CISR, CONTAINER, CSR, DIA, ELL, HYB, JDS};
use std::alloc::{AllocError, Global};
use std::test::Fail;

/// Whether reading these bytes is answered by this line, and stores a text only where it is `ok`.
fn is_read(alloc: Global, bytes: &[u8], line: &str) -> Result<bool, AllocError> {
    let mut outside = files(alloc, b"", bytes)?;
    Ok(
        is_answered(alloc, &mut outside, &["canon", "A", "OUT"], line)
            && has_file(&outside, "OUT") == (line == "ok"),
    )
}

/// These bytes with the lowest bit of one of them changed.
pub fn changed(alloc: Global, bytes: &[u8], place: usize) -> Result<Vec<u8>, AllocError> {
    let mut copy = Vec::new(alloc);
    for (k, byte) in bytes.iter().enumerate() {
        copy.push(if k == place { *byte ^ 1 } else { *byte })?;
    }
    Ok(copy)
}

/// The place of the byte whose lowest bit is changed, and the answer.
const CHANGES: [(usize, &str); 43] = [
    (0, "matrix IN header"),
    (6, "matrix IN header"),
    (7, "container version 0"),
    // the length of the text
    (8, "container text 62"),
    (9, "container truncated 16"),
    (15, "container truncated 16"),
    // the text: the name, a word, an index, a number, the end
    (23, "ok"),
    (28, "container text 28"),
    (36, "container refused J2 part 1 place 0"),
    (49, "container refused J8 part 1 place 3"),
    (62, "container text 62"),
    // rows and columns
    (63, "container lengths 0"),
    (66, "container lengths 0"),
    (67, "container shape"),
    (70, "container shape"),
    (71, "ok"),
    (72, "ok"),
    (74, "ok"),
    (75, "container shape"),
    (78, "container shape"),
    // the number of buffers
    (79, "container lengths 2"),
    (80, "container lengths 3"),
    (83, "container lengths 3"),
    (86, "container lengths 3"),
    // the starts of the rows
    (87, "container trailing 167"),
    (88, "container truncated 191"),
    (91, "container truncated 191"),
    (94, "container truncated 191"),
    (95, "container climb 1 0"),
    (102, "container climb 1 0"),
    (103, "container cell 0 2 2 3"),
    // the columns
    (127, "container trailing 167"),
    (128, "container truncated 191"),
    (134, "container truncated 191"),
    (135, "ok"),
    (136, "container climb 1 0"),
    (142, "container climb 1 0"),
    (143, "ok"),
    // the values
    (159, "container trailing 183"),
    (160, "container truncated 191"),
    (166, "container truncated 191"),
    (167, "ok"),
    (183, "ok"),
];

#[test]
fn containers_with_one_bit_changed(rt: HostRuntime) -> Result<(), Fail> {
    let alloc = rt.alloc();
    for (place, line) in CHANGES {
        let bytes = changed(alloc, CONTAINER, place)?;
        assert!(rt; is_read(alloc, bytes.as_slice(), line)?, "{place}");
    }
    Ok(())
}

/// The first bytes of the sample's container, and one more.
fn cut(alloc: Global, len: usize, last: &[u8]) -> Result<Vec<u8>, AllocError> {
    let mut copy = Vec::new(alloc);
    for byte in CONTAINER.iter().take(len) {
        copy.push(*byte)?;
    }
    copy.extend_from_slice(last)?;
    Ok(copy)
}

/// How many bytes of the container are left, what stands behind them, and the answer.
const CUTS: [(usize, &[u8], &str); 9] = [
    (0, b"", "matrix IN header"),
    (6, b"", "matrix IN header"),
    (7, b"", "container truncated 7"),
    (7, b"\x09", "container version 9"),
    (8, b"", "container truncated 8"),
    (40, b"", "container truncated 16"),
    (100, b"", "container truncated 95"),
    (190, b"", "container truncated 183"),
    (191, b"\0", "container trailing 191"),
];

#[test]
fn containers_that_are_cut_off(rt: HostRuntime) -> Result<(), Fail> {
    let alloc = rt.alloc();
    for (len, last, line) in CUTS {
        let bytes = cut(alloc, len, last)?;
        assert!(rt; is_read(alloc, bytes.as_slice(), line)?, "{line}");
    }
    Ok(())
}

/// Appends a number.
fn push_number(bytes: &mut Vec<u8>, number: u64) -> Result<(), AllocError> {
    bytes.extend_from_slice(&number.to_le_bytes())
}

/// Appends a buffer.
fn push_buffer(bytes: &mut Vec<u8>, cells: &[i64]) -> Result<(), AllocError> {
    push_number(bytes, cells.len() as u64)?;
    for cell in cells {
        push_number(bytes, cell.cast_unsigned())?;
    }
    Ok(())
}

/// The bytes of a container up to its text.
fn with_text(alloc: Global, text: &[u8]) -> Result<Vec<u8>, AllocError> {
    let mut bytes = Vec::from_slice(alloc, b"USPARSE\x01")?;
    push_number(&mut bytes, text.len() as u64)?;
    bytes.extend_from_slice(text)?;
    Ok(bytes)
}

/// A container for 3 rows and 4 columns.
pub fn container(alloc: Global, text: &str, buffers: &[&[i64]]) -> Result<Vec<u8>, AllocError> {
    let mut bytes = with_text(alloc, text.as_bytes())?;
    push_number(&mut bytes, 3)?;
    push_number(&mut bytes, 4)?;
    push_number(&mut bytes, buffers.len() as u64)?;
    for cells in buffers {
        push_buffer(&mut bytes, cells)?;
    }
    Ok(bytes)
}

/// Texts that are not canonical or not whole, and the answer.
const TEXTS: [(&[u8], &str); 7] = [
    (b"", "container text 16"),
    (b"format csr{map(i,j)}", "container text 26"),
    (
        b"format csr {\n  map (i, j)\n  trim 1\n  merge 1\n}",
        "container text 62",
    ),
    (
        b"format csr {\n  map (i, j)\n  trim 1\n  merge 1\n}\nx",
        "container text 63",
    ),
    (
        b"format csr {\n  map (i, j)\n  trim 1\n  merge 1\n}\n # none\n",
        "container text 63",
    ),
    (
        b"format csr {\n  map (i, k)\n  trim 01\n  merge 1\n}\n",
        "container text 49",
    ),
    // nothing stands behind the text
    (
        b"format csr {\n  map (i, j)\n  trim 1\n  merge 1\n}\n",
        "container truncated 63",
    ),
];

#[test]
fn texts_are_canonical(rt: HostRuntime) -> Result<(), Fail> {
    let alloc = rt.alloc();
    for (text, line) in TEXTS {
        let bytes = with_text(alloc, text)?;
        assert!(rt; is_read(alloc, bytes.as_slice(), line)?, "{line}");
    }
    Ok(())
}

/// Formats, buffers for 3 rows and 4 columns, and the answer.
const BUFFERS: [(&str, &[&[i64]], &str); 33] = [
    (CSR, &[&[0, 2, 2, 3], &[0, 2, 1], &[5, 2, -7]], "ok"),
    (
        CSR,
        &[&[0, 2, 1, 3], &[0, 2, 1], &[5, 2, -7]],
        "container cell 0 2 1 2",
    ),
    (
        CSR,
        &[&[0, 2, 2, 3], &[0, 0, 1], &[5, 2, -7]],
        "container climb 1 1",
    ),
    (
        CSR,
        &[&[0, 2, 2, 3], &[0, 4, 1], &[5, 2, -7]],
        "container climb 1 1",
    ),
    (
        CSR,
        &[&[0, 2, 2, 3], &[0, 2, 1, 0], &[5, 2, -7, 0]],
        "container long 1 4 3",
    ),
    (
        CSR,
        &[&[0, 2, 2, 3], &[0, 2, 1], &[5, 2]],
        "container lengths 2",
    ),
    (CSR, &[&[0, 2, 2, 3], &[0, 2, 1]], "container lengths 2"),
    (
        CSR,
        &[&[0, 2, 2, 3], &[0, 2, 1], &[5, 2, -7], &[]],
        "container lengths 3",
    ),
    (
        DIA,
        &[&[0, 3], &[1, 2, 4], &[0, 0, -7, 5, 0, 0, 2, 0, 0]],
        "ok",
    ),
    // the last position stands for row 2 and column 4
    (
        DIA,
        &[&[0, 3], &[1, 2, 4], &[0, 0, -7, 5, 0, 0, 2, 0, 1]],
        "container climb 1 8",
    ),
    (
        DIA,
        &[&[0, 3], &[1, 2, 4], &[0, 0, -7, 5, 0, 0, 2, 0]],
        "container lengths 2",
    ),
    (
        AOS,
        &[&[0, 3], &[0, 0, 5, 0, 2, 2, 2, 1]],
        "container lengths 1",
    ),
    // an extent that is none, one that fits no lengths, and one above the greatest count
    (
        ELL,
        &[&[-1], &[0, 2, 0, 0, 1, 0], &[5, 2, 0, 0, -7, 0]],
        "container lengths 0",
    ),
    (
        ELL,
        &[&[2, 2], &[0, 2, 0, 0, 1, 0], &[5, 2, 0, 0, -7, 0]],
        "container lengths 0",
    ),
    (
        ELL,
        &[&[3], &[0, 2, 0, 0, 1, 0], &[5, 2, 0, 0, -7, 0]],
        "container lengths 1",
    ),
    (
        ELL,
        &[
            &[3],
            &[0, 2, 0, 0, 0, 0, 1, 0, 0],
            &[5, 2, 0, 0, 0, 0, -7, 0, 0],
        ],
        "container cell 0 0 3 2",
    ),
    // padding that isn't 0, and an entry that leaves a hole in its row
    (
        ELL,
        &[&[2], &[0, 2, 0, 0, 1, 1], &[5, 2, 0, 0, -7, 0]],
        "container cell 1 5 1 0",
    ),
    (
        ELL,
        &[&[2], &[0, 2, 0, 0, 0, 1], &[5, 2, 0, 0, 0, -7]],
        "container cell 1 4 0 1",
    ),
    // an order with a row twice, and one of equal rows
    (
        JDS,
        &[&[2], &[0, 0, 1], &[0, 2, 1, 0, 0, 0], &[5, 2, -7, 0, 0, 0]],
        "container cell 0 0 2 3",
    ),
    (
        JDS,
        &[&[2], &[0, 3, 1], &[0, 2, 1, 0, 0, 0], &[5, 2, -7, 0, 0, 0]],
        "container climb 1 2",
    ),
    (
        JDS,
        &[&[1], &[1, 0, 2], &[3, 0, 1], &[8, 5, -7]],
        "container cell 1 0 1 0",
    ),
    (
        JDS,
        &[&[2], &[0, 2], &[0, 2, 1, 0, 0, 0], &[5, 2, -7, 0, 0, 0]],
        "container lengths 1",
    ),
    // a place of a lane without a row, and one with a row that isn't there
    (
        CISR,
        &[
            &[2],
            &[0, 0, 2, 3],
            &[0, 2, 2, 2, 3],
            &[0, 2, 1],
            &[5, 2, -7],
        ],
        "container climb 1 0",
    ),
    (
        CISR,
        &[
            &[2],
            &[4, 0, 2, 3],
            &[0, 2, 2, 2, 3],
            &[0, 2, 1],
            &[5, 2, -7],
        ],
        "container climb 1 0",
    ),
    // a row without entries in a lane that isn't its own
    (
        CISR,
        &[
            &[2],
            &[1, 2, 3, 0],
            &[0, 2, 2, 3, 3],
            &[0, 2, 1],
            &[5, 2, -7],
        ],
        "container cell 1 1 2 0",
    ),
    // lanes with fewer places than rows
    (
        CISR,
        &[&[1], &[1, 3], &[0, 2, 3], &[0, 2, 1], &[5, 2, -7]],
        "container lengths 1",
    ),
    // the second part
    (
        HYB,
        &[&[1], &[0, 0, 1], &[5, 0, -7], &[0, 1], &[0], &[0], &[2]],
        "container climb 2 0",
    ),
    (
        HYB,
        &[&[1], &[0, 0, 1], &[5, 0, -7], &[0, 1], &[0], &[4], &[2]],
        "container climb 2 0",
    ),
    (
        HYB,
        &[&[1], &[0, 0, 1], &[5, 0, -7], &[0, 1], &[0], &[2], &[]],
        "container lengths 6",
    ),
    (
        HYB,
        &[&[1], &[0, 0, 1], &[5, 0, -7], &[0, 1, 1], &[0], &[2], &[2]],
        "container lengths 3",
    ),
    (
        HYB,
        &[&[1], &[0, 0, 1], &[5, 0, -7], &[0, 1], &[0], &[2]],
        "container lengths 6",
    ),
    // an entry of the first part in the second, and one of the second in the first
    (
        HYB,
        &[
            &[1],
            &[0, 0, 0],
            &[5, 0, 0],
            &[0, 2],
            &[0, 2],
            &[2, 1],
            &[2, -7],
        ],
        "container cell 1 2 0 1",
    ),
    (
        HYB,
        &[
            &[2],
            &[0, 2, 0, 0, 1, 0],
            &[5, 2, 0, 0, -7, 0],
            &[0, 0],
            &[],
            &[],
            &[],
        ],
        "container cell 0 0 2 1",
    ),
];

#[test]
fn buffers_are_well_formed_or_have_a_first_reason(rt: HostRuntime) -> Result<(), Fail> {
    let alloc = rt.alloc();
    for (text, buffers, line) in BUFFERS {
        let bytes = container(alloc, text, buffers)?;
        assert!(rt; is_read(alloc, bytes.as_slice(), line)?, "{line}");
    }
    Ok(())
}

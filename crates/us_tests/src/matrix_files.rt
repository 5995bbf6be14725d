//! Matrix files that are read, files that are not, and the text that is written.

use crate::samples::SAMPLE;
use std::alloc::Global;
use std::test::Fail;
use us_matrix::{Matrix, Triple};
use us_mm::{MmFault, read_array, read_coordinate, write_array, write_coordinate};

const EMPTY: &str = "%%MatrixMarket matrix coordinate integer general\n2 2 0\n";

/// Files, each with the canonical text of its matrix.
const READ: [(&str, &str); 11] = [
    // in any order, with a comment, and without the last line feed
    (
        "%%MatrixMarket matrix coordinate integer general\n%\n3 4 3\n3 2 -7\n1 1 5\n1 3 2",
        SAMPLE,
    ),
    // in any case, and with carriage returns
    (
        "%%matrixmarket MATRIX Coordinate Integer General\r\n3 4 3\r\n1 1 5\r\n1 3 2\r\n3 2 -7\r\n",
        SAMPLE,
    ),
    // blanks round words, blank lines, signs and leading zeros
    (
        "%%MatrixMarket  matrix\tcoordinate integer general \n \t\n\t+3  04 3\n+1 1 +5\n\n1 3 0002\n% 9 9 9\n3 +2 -07 \n\n%",
        SAMPLE,
    ),
    // more digits than a number of 64 bits has
    (
        "%%MatrixMarket matrix coordinate integer general\n3 4 000000000000000000000000003\n1 1 5\n1 3 2\n3 2 -00000000000000000000007",
        SAMPLE,
    ),
    // values at one place are added, and a sum of 0 leaves none
    (
        "%%MatrixMarket matrix coordinate integer general\n2 2 3\n1 1 5\n1 1 -5\n2 2 0\n",
        EMPTY,
    ),
    // sums are modulo 2^64
    (
        "%%MatrixMarket matrix coordinate integer general\n2 2 2\n2 1 -9223372036854775808\n2 1 -9223372036854775808\n",
        EMPTY,
    ),
    (
        "%%MatrixMarket matrix coordinate integer general\n2 2 2\n2 1 9223372036854775807\n2 1 1\n",
        "%%MatrixMarket matrix coordinate integer general\n2 2 1\n2 1 -9223372036854775808\n",
    ),
    // the stored triangle stands for the other one too, with the negative value modulo 2^64
    (
        "%%MatrixMarket matrix coordinate integer skew-symmetric\n2 2 1\n2 1 -9223372036854775808\n",
        "%%MatrixMarket matrix coordinate integer general\n2 2 2\n1 2 -9223372036854775808\n2 1 -9223372036854775808\n",
    ),
    // an entry on the diagonal stands for itself alone
    (
        "%%MatrixMarket matrix coordinate integer symmetric\n2 2 2\n1 1 5\n2 1 3\n",
        "%%MatrixMarket matrix coordinate integer general\n2 2 3\n1 1 5\n1 2 3\n2 1 3\n",
    ),
    // each value of a pattern is 1
    (
        "%%MatrixMarket matrix coordinate pattern general\n2 2 1\n2 1\n",
        "%%MatrixMarket matrix coordinate integer general\n2 2 1\n2 1 1\n",
    ),
    // the largest shape
    (
        "%%MatrixMarket matrix coordinate integer general\n2147483647 2147483647 1\n2147483647 2147483647 1\n",
        "%%MatrixMarket matrix coordinate integer general\n2147483647 2147483647 1\n2147483647 2147483647 1\n",
    ),
];

/// Texts behind a header, and the fault of each.
const REFUSED: [(&str, MmFault); 33] = [
    ("", MmFault::SizeLine { line: 2 }),
    ("% 1 1 0\n\n", MmFault::SizeLine { line: 4 }),
    ("3 4\n", MmFault::SizeLine { line: 2 }),
    ("3 4 1 1\n", MmFault::SizeLine { line: 2 }),
    ("3 -4 1\n", MmFault::SizeLine { line: 2 }),
    ("3 4.0 1\n", MmFault::SizeLine { line: 2 }),
    (" % 3 4 1\n", MmFault::SizeLine { line: 2 }),
    ("0 4 0\n", MmFault::Shape { line: 2 }),
    ("2147483648 4 0\n", MmFault::Shape { line: 2 }),
    ("4 4294967297 0\n", MmFault::Shape { line: 2 }),
    ("2 2 8388609\n", MmFault::TooManyEntries { count: 8388609 }),
    (
        "2 2 18446744073709551617\n",
        MmFault::TooManyEntries {
            count: 18446744073709551615,
        },
    ),
    ("2 2 1\n1 1\n", MmFault::EntryLine { line: 3 }),
    ("2 2 1\n1 1 1 1\n", MmFault::EntryLine { line: 3 }),
    ("2 2 1\n1 1 1.0\n", MmFault::EntryLine { line: 3 }),
    ("2 2 1\n1 1 2.7\n", MmFault::EntryLine { line: 3 }),
    ("2 2 1\n1 1 0x10\n", MmFault::EntryLine { line: 3 }),
    ("2 2 1\n1 1 nan\n", MmFault::EntryLine { line: 3 }),
    ("2 2 1\n1 1 1e3\n", MmFault::EntryLine { line: 3 }),
    ("2 2 1\n1 1 +-1\n", MmFault::EntryLine { line: 3 }),
    ("2 2 1\n1 1 -\n", MmFault::EntryLine { line: 3 }),
    ("2 2 1\n-1 1 1\n", MmFault::EntryLine { line: 3 }),
    ("2 2 1\n1 1 1\0\n", MmFault::EntryLine { line: 3 }),
    ("2 2 1\n1 1 1\r\r\n", MmFault::EntryLine { line: 3 }),
    ("2 2 1\n\n% note\n3 1 5\n", MmFault::OutOfShape { line: 5 }),
    ("2 2 1\n0 1 5\n", MmFault::OutOfShape { line: 3 }),
    ("2 2 1\n4294967297 1 5\n", MmFault::OutOfShape { line: 3 }),
    (
        "2 2 1\n1 1 9223372036854775808\n",
        MmFault::ValueRange { line: 3 },
    ),
    (
        "2 2 1\n1 1 -9223372036854775809\n",
        MmFault::ValueRange { line: 3 },
    ),
    // the row decides before the value
    (
        "2 2 1\n3 1 9223372036854775808\n",
        MmFault::OutOfShape { line: 3 },
    ),
    (
        "2 2 2\n1 1 5\n",
        MmFault::Missing {
            found: 1,
            wanted: 2,
        },
    ),
    (
        "2147483647 2147483647 8388608\n",
        MmFault::Missing {
            found: 0,
            wanted: 8388608,
        },
    ),
    ("2 2 1\n1 1 5\n%\n1 1 5\n", MmFault::Extra { line: 5 }),
];

/// First lines and small files of each form, and the fault of each.
const HEADERS: [(&str, MmFault); 15] = [
    ("", MmFault::Header),
    ("\n", MmFault::Header),
    (
        "%%MatrixMarket matrix coordinate integer\n",
        MmFault::Header,
    ),
    (
        "%%MatrixMarket matrix coordinate integer general x\n",
        MmFault::Header,
    ),
    (
        "%MatrixMarket matrix coordinate integer general\n",
        MmFault::Header,
    ),
    (
        "%%MatrixMarket vector coordinate integer general\n",
        MmFault::Unsupported { word: 2 },
    ),
    (
        "%%MatrixMarket matrix array integer general\n",
        MmFault::Unsupported { word: 3 },
    ),
    (
        "%%MatrixMarket matrix coordinate real general\n",
        MmFault::Unsupported { word: 4 },
    ),
    (
        "%%MatrixMarket matrix coordinate integer hermitian\n",
        MmFault::Unsupported { word: 5 },
    ),
    (
        "%%MatrixMarket matrix coordinate pattern skew-symmetric\n",
        MmFault::Unsupported { word: 5 },
    ),
    // an entry above the diagonal is in the other triangle
    (
        "%%MatrixMarket matrix coordinate integer symmetric\n2 2 1\n1 2 5\n",
        MmFault::Triangle { line: 3 },
    ),
    (
        "%%MatrixMarket matrix coordinate integer skew-symmetric\n2 2 1\n1 1 5\n",
        MmFault::Triangle { line: 3 },
    ),
    (
        "%%MatrixMarket matrix coordinate integer symmetric\n2 3 0\n",
        MmFault::Shape { line: 2 },
    ),
    // lines are counted, not the entries that they stand for
    (
        "%%MatrixMarket matrix coordinate integer symmetric\n2 2 2\n2 1 3\n",
        MmFault::Missing {
            found: 1,
            wanted: 2,
        },
    ),
    (
        "%%MatrixMarket matrix coordinate pattern general\n2 2 1\n1 1 1\n",
        MmFault::EntryLine { line: 3 },
    ),
];

/// Whether the canonical text of a matrix is this.
fn is_written_as(alloc: Global, matrix: &Matrix, text: &str) -> bool {
    match write_coordinate(alloc, matrix) {
        Ok(written) => written.as_slice() == text.as_bytes(),
        Err(_) => false,
    }
}

/// Whether a file has a matrix with this canonical text.
fn is_read_as(alloc: Global, file: &[u8], text: &str) -> bool {
    match read_coordinate(alloc, file) {
        Ok(matrix) => is_written_as(alloc, &matrix, text),
        Err(_) => false,
    }
}

/// The fault of reading a file, if there is one.
fn fault_of(alloc: Global, file: &[u8]) -> Option<MmFault> {
    match read_coordinate(alloc, file) {
        Ok(_) => None,
        Err(fault) => Some(fault),
    }
}

#[test]
fn each_spelling_gives_its_matrix(rt: HostRuntime) {
    let alloc = rt.alloc();
    for (file, text) in READ {
        assert!(rt; is_read_as(alloc, file.as_bytes(), text), "{file}");
        assert!(rt; is_read_as(alloc, text.as_bytes(), text), "{text}");
    }
}

#[test]
fn each_form_has_its_faults(rt: HostRuntime) {
    let alloc = rt.alloc();
    for (file, fault) in HEADERS {
        assert_eq!(rt; fault_of(alloc, file.as_bytes()), Some(fault), "{file}");
    }
}

#[test]
fn each_fault_has_its_line(rt: HostRuntime) -> Result<(), Fail> {
    let alloc = rt.alloc();
    for (body, fault) in REFUSED {
        let file = format!(in alloc; "%%MatrixMarket matrix coordinate integer general\n{body}")?;
        assert_eq!(rt; fault_of(alloc, file.as_bytes()), Some(fault), "{body}");
    }
    Ok(())
}

#[test]
fn a_long_comment_is_one_line(rt: HostRuntime) -> Result<(), Fail> {
    let alloc = rt.alloc();
    let mut file = Vec::from_slice(
        alloc,
        b"%%MatrixMarket matrix coordinate integer general\n%",
    )?;
    for _ in 0..100000u32 {
        file.push(b'1')?;
    }
    file.extend_from_slice(b"\n3 4 3\n1 1 5\n1 3 2\n3 2 -7\n")?;
    assert!(rt; is_read_as(alloc, file.as_slice(), SAMPLE));
    Ok(())
}

/// Whether a copy of the file's matrix has these entries.
fn is_copied(alloc: Global, file: &[u8], entries: &[Triple]) -> bool {
    match read_coordinate(alloc, file) {
        Ok(matrix) => match matrix.copy(alloc) {
            Ok(copy) => copy.entries() == entries && matrix.get(2, 1) == -7,
            Err(_) => false,
        },
        Err(_) => false,
    }
}

#[test]
fn a_matrix_is_copied(rt: HostRuntime) {
    let entries = [
        Triple { i: 0, j: 0, v: 5 },
        Triple { i: 0, j: 2, v: 2 },
        Triple { i: 2, j: 1, v: -7 },
    ];
    assert!(rt; is_copied(rt.alloc(), SAMPLE.as_bytes(), entries.as_slice()));
}

/// A dense matrix of 2 rows and 3 columns, column after column.
const DENSE: &str = "%%MatrixMarket matrix array integer general\n2 3\n1\n2\n3\n4\n5\n-6\n";

/// Texts behind the header of an operand file, and the fault of each.
const REFUSED_ARRAYS: [(&str, MmFault); 6] = [
    ("0 4\n", MmFault::Shape { line: 2 }),
    ("5793 5793\n", MmFault::TooManyEntries { count: 33558849 }),
    (
        "1 1\n9223372036854775808\n",
        MmFault::ValueRange { line: 3 },
    ),
    ("1 1\n1 1\n", MmFault::EntryLine { line: 3 }),
    (
        "2 2\n1\n2\n3\n",
        MmFault::Missing {
            found: 3,
            wanted: 4,
        },
    ),
    ("1 1\n1\n1\n", MmFault::Extra { line: 4 }),
];

/// Whether an operand file is written as it was read, with -6 in its last row and column.
fn is_read_column_by_column(alloc: Global, file: &[u8]) -> bool {
    match read_array(alloc, file) {
        Ok(dense) if dense.rows() == 2 && dense.cols() == 3 => {
            match write_array(alloc, &dense) {
                Ok(written) => {
                    written.as_slice() == file && dense.at(1, 0) == 2 && dense.at(1, 2) == -6
                }
                Err(_) => false,
            }
        }
        _ => false,
    }
}

/// The fault of reading an operand file, if there is one.
fn fault_of_array(alloc: Global, file: &[u8]) -> Option<MmFault> {
    match read_array(alloc, file) {
        Ok(_) => None,
        Err(fault) => Some(fault),
    }
}

#[test]
fn an_operand_is_read_column_by_column(rt: HostRuntime) {
    assert!(rt; is_read_column_by_column(rt.alloc(), DENSE.as_bytes()));
}

#[test]
fn each_operand_fault_has_its_line(rt: HostRuntime) -> Result<(), Fail> {
    let alloc = rt.alloc();
    for (body, fault) in REFUSED_ARRAYS {
        let file = format!(in alloc; "%%MatrixMarket matrix array integer general\n{body}")?;
        assert_eq!(rt;
            fault_of_array(alloc, file.as_bytes()),
            Some(fault),
            "{body}"
        );
    }
    Ok(())
}

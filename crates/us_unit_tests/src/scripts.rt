//! Scripts of changes, and what they make of a matrix.

use std::alloc::{AllocError, Global};
use std::test::Fail;
use us_changes::{changes, matrix_after};
use us_matrix::{Matrix, Shape};
use us_mm::{read_coordinate, write_coordinate};
use us_script::{Script, ScriptFault, parse_script, print_script};

/// 5, 2 and -7.
const SAMPLE: &str =
    "%%MatrixMarket matrix coordinate integer general\n3 4 3\n1 1 5\n1 3 2\n3 2 -7\n";

/// A new entry, a change that is undone, and an entry that goes.
const SCRIPT: &str = "set 2 4 9\nsize\nset 1 1 0\nundo\nset 3 2 0\n";

const CHANGED: &str =
    "%%MatrixMarket matrix coordinate integer general\n3 4 3\n1 1 5\n1 3 2\n2 4 9\n";

/// The matrix behind the first line.
const ADDED: &str =
    "%%MatrixMarket matrix coordinate integer general\n3 4 4\n1 1 5\n1 3 2\n2 4 9\n3 2 -7\n";

const INVERSE: &str = "set 2 4 0\nset 3 2 -7\n";

/// Whether a matrix has this canonical text.
fn has_text(alloc: Global, matrix: &Matrix, text: &str) -> Result<bool, AllocError> {
    let bytes = write_coordinate(alloc, matrix)?;
    Ok(bytes.as_slice() == text.as_bytes())
}

/// Whether a script has this text.
fn is_written(alloc: Global, script: &Script, text: &str) -> Result<bool, AllocError> {
    let bytes = print_script(alloc, script)?;
    Ok(bytes.as_slice() == text.as_bytes())
}

/// Whether a script makes these of a matrix: the matrix behind it, the one behind its first step, and the inverse.
fn makes(
    alloc: Global,
    matrix: &str,
    script: &str,
    first: &str,
    changed: &str,
    inverse: &str,
) -> Result<bool, AllocError> {
    let Ok(matrix) = read_coordinate(alloc, matrix.as_bytes()) else {
        return Ok(false);
    };
    let shape = matrix.shape();
    let Ok(script) = parse_script(alloc, script.as_bytes(), shape) else {
        return Ok(false);
    };
    if script.steps().is_empty() {
        return Ok(false);
    }
    let one = matrix_after(alloc, &matrix, &script, 1)?;
    let all = changes(alloc, &matrix, &script)?;
    Ok(
        has_text(alloc, &one, first)?
            && has_text(alloc, &all.matrix, changed)?
            && is_written(alloc, &all.inverse, inverse)?,
    )
}

#[test]
fn a_script_and_its_inverse(rt: HostRuntime) -> Result<(), Fail> {
    let alloc = rt.alloc();
    assert!(rt; makes(alloc, SAMPLE, SCRIPT, ADDED, CHANGED, INVERSE)?);
    // the inverse takes the changes back, and its own inverse makes them again
    let one = "%%MatrixMarket matrix coordinate integer general\n3 4 2\n1 1 5\n1 3 2\n";
    let again = "set 2 4 9\nset 3 2 0\n";
    assert!(rt; makes(alloc, CHANGED, INVERSE, one, SAMPLE, again)?);
    Ok(())
}

/// Scripts for 3 rows and 4 columns, and their first faults.
const FAULTS: [(&str, ScriptFault); 9] = [
    ("undo\n", ScriptFault::Nothing { line: 1 }),
    ("set 4 1 5\n", ScriptFault::OutOfShape { line: 1 }),
    ("set 0 1 5\n", ScriptFault::OutOfShape { line: 1 }),
    (
        "% a comment\n\nset 1 1 9223372036854775808",
        ScriptFault::ValueRange { line: 3 },
    ),
    ("set 1 1\n", ScriptFault::Line { line: 1 }),
    ("size now\n", ScriptFault::Line { line: 1 }),
    (
        "set 1 1 1\nundo\nundo\nsat\n",
        ScriptFault::Nothing { line: 3 },
    ),
    ("Set 1 1 1\n", ScriptFault::Line { line: 1 }),
    ("set 1 5 x\n", ScriptFault::Line { line: 1 }),
];

/// Whether a script for 3 rows and 4 columns has this first fault.
fn is_refused(alloc: Global, script: &str, fault: ScriptFault) -> bool {
    let shape = Shape { rows: 3, cols: 4 };
    match parse_script(alloc, script.as_bytes(), shape) {
        Ok(_) => false,
        Err(found) => found == fault,
    }
}

#[test]
fn first_faults_of_scripts(rt: HostRuntime) -> Result<(), Fail> {
    for (script, fault) in FAULTS {
        assert!(rt; is_refused(rt.alloc(), script, fault), "{script}");
    }
    Ok(())
}

/// So many lines.
fn repeated(alloc: Global, line: &str, count: usize) -> Result<String, AllocError> {
    let mut text = String::new(alloc);
    for _ in 0..count {
        text.push_str(line)?;
    }
    Ok(text)
}

#[test]
fn at_most_256_sizes_are_asked(rt: HostRuntime) -> Result<(), Fail> {
    let alloc = rt.alloc();
    let text = repeated(alloc, "size\n", 257)?;
    assert!(rt; is_refused(alloc, text.as_str(), ScriptFault::TooMany { line: 257 }));
    let text = repeated(alloc, "size\n", 256)?;
    assert!(rt; parse_script(alloc, text.as_bytes(), Shape { rows: 3, cols: 4 }).is_ok());
    Ok(())
}

//! Loop code that is run: what the command answers, stores and prints.

use crate::runs::{files, has_file, has_printed, is_answered, is_file};
use crate::samples::{CONTAINER, SAMPLE, library};
use std::alloc::{AllocError, Global};
use std::test::Fail;
use us_outside::Call;

/// A unit that copies a CSR container.
const COPY: &str = "format csr {
  map (i, j)
  trim 1
  merge 1
}
code 3 {
  phase {
    new b0[len0] word
    new b1[len1] word
    new b2[len2] word
    do {
      for r0 below len0 {
        let r1 = s0[r0]
        set b0[r0] = r1
      }
      for r0 below len1 {
        let r1 = s1[r0]
        set b1[r0] = r1
      }
      for r0 below len2 {
        let r1 = s2[r0]
        set b2[r0] = r1
      }
    }
  }
  give b0, b1, b2
}
";

/// The copy with a loaded word as an index.
const WORD_AS_INDEX: &str = "format csr {
  map (i, j)
  trim 1
  merge 1
}
code 3 {
  phase {
    new b0[len0] word
    new b1[len1] word
    new b2[len2] word
    do {
      for r0 below len0 {
        let r1 = s0[r0]
        let r2 = s1[r1]
        set b0[r0] = r1
      }
      for r0 below len1 {
        let r1 = s1[r0]
        set b1[r0] = r1
      }
      for r0 below len2 {
        let r1 = s2[r0]
        set b2[r0] = r1
      }
    }
  }
  give b0, b1, b2
}
";

/// The copy with a test in front of that load.
const TESTED: &str = "format csr {
  map (i, j)
  trim 1
  merge 1
}
code 3 {
  phase {
    new b0[len0] word
    new b1[len1] word
    new b2[len2] word
    do {
      for r0 below len0 {
        let r1 = s0[r0]
        when r1 below len1 as r2 {
          let r3 = s1[r2]
        }
        set b0[r0] = r1
      }
      for r0 below len1 {
        let r1 = s1[r0]
        set b1[r0] = r1
      }
      for r0 below len2 {
        let r1 = s2[r0]
        set b2[r0] = r1
      }
    }
  }
  give b0, b1, b2
}
";

/// The copy without its last loop.
const WITHOUT_VALUES: &str = "format csr {
  map (i, j)
  trim 1
  merge 1
}
code 3 {
  phase {
    new b0[len0] word
    new b1[len1] word
    new b2[len2] word
    do {
      for r0 below len0 {
        let r1 = s0[r0]
        set b0[r0] = r1
      }
      for r0 below len1 {
        let r1 = s1[r0]
        set b1[r0] = r1
      }
    }
  }
  give b0, b1, b2
}
";

/// Units, the most steps, and the answer on the container of the small matrix; those that are done print as many steps.
const RUNS: [(&str, &str, &str, &str); 15] = [
    (COPY, "36", "ok", "steps 36\n"),
    (COPY, "18446744073709551615", "ok", "steps 36\n"),
    (TESTED, "43", "ok", "steps 43\n"),
    (COPY, "35", "out of steps 35", ""),
    (TESTED, "42", "out of steps 42", ""),
    (COPY, "18446744073709551616", "words", ""),
    (COPY, "ten", "words", ""),
    (WORD_AS_INDEX, "1000", "unbound phase 0 stmt 5 V2", ""),
    (WITHOUT_VALUES, "1000", "not well formed cell 0 1 2 0", ""),
    // the budget is judged before the result
    (WITHOUT_VALUES, "25", "out of steps 25", ""),
    (
        "format x { map () } code 0 { give }",
        "1",
        "refused name 1 J1 part 1 place 0",
        "",
    ),
    (
        "format x { map (i, j) } code 0 { give }",
        "1",
        "sources 0 3",
        "",
    ),
    (
        "format x { map (i, j) } code 3 { phase { do { } dim d0 of 70000000 } give }",
        "1",
        "too large 1",
        "",
    ),
    // a token, and a byte of none, behind the program
    (
        "format x { map (i, j) } code 0 { give } # more\n code",
        "1",
        "code form 48",
        "",
    ),
    (
        "format x { map (i, j) } code 0 { give } ;",
        "1",
        "code token 40",
        "",
    ),
];

/// Whether a unit that is run on the container of the small matrix is answered so and prints this, and what is stored.
fn runs(
    alloc: Global,
    unit: &str,
    steps: &str,
    line: &str,
    printed: &str,
) -> Result<bool, AllocError> {
    let mut outside = files(alloc, unit.as_bytes(), CONTAINER)?;
    let words = ["run", "LIB", "A", "OUT", steps];
    Ok(
        is_answered(alloc, &mut outside, &words, line)
            && has_printed(&outside, printed.as_bytes())
            && if line == "ok" {
                is_file(&outside, "OUT", CONTAINER)
            } else {
                !has_file(&outside, "OUT")
            },
    )
}

#[test]
fn code_is_run_within_its_steps(rt: HostRuntime) -> Result<(), Fail> {
    for (unit, steps, line, printed) in RUNS {
        assert!(rt; runs(rt.alloc(), unit, steps, line, printed)?, "{line}");
    }
    Ok(())
}

#[test]
fn code_has_as_many_sources_as_the_input_has_buffers(rt: HostRuntime) -> Result<(), Fail> {
    let alloc = rt.alloc();
    let library = library(alloc)?;
    let mut outside = files(alloc, library.as_bytes(), SAMPLE.as_bytes())?;
    outside.put("COPY", COPY.as_bytes())?;
    let convert = ["convert", "LIB", "A", "coo", "C", "-"];
    assert!(rt; is_answered(alloc, &mut outside, &convert, "ok"));
    let run = ["run", "COPY", "C", "OUT", "1000"];
    assert!(rt; is_answered(alloc, &mut outside, &run, "sources 3 4"));
    // a matrix file is held as a list of rows and columns
    let run = ["run", "COPY", "A", "OUT", "1000"];
    assert!(rt; is_answered(alloc, &mut outside, &run, "sources 3 4"));
    assert!(rt; !has_file(&outside, "OUT"));
    Ok(())
}

/// Whether a copy of the container of the small matrix is answered so where this call fails.
fn fails(alloc: Global, call: Call, nth: u64, line: &str) -> Result<bool, AllocError> {
    let mut outside = files(alloc, COPY.as_bytes(), CONTAINER)?;
    outside.fail(call, nth, 0)?;
    let words = ["run", "LIB", "A", "OUT", "36"];
    Ok(is_answered(alloc, &mut outside, &words, line))
}

#[test]
fn a_run_tells_which_file_failed(rt: HostRuntime) -> Result<(), Fail> {
    let alloc = rt.alloc();
    assert!(rt; fails(alloc, Call::Fetch, 1, "read fault CODE")?);
    assert!(rt; fails(alloc, Call::Store, 1, "write fault OUT")?);
    assert!(rt; fails(alloc, Call::Print, 1, "write fault PRINT")?);
    let mut outside = files(alloc, COPY.as_bytes(), CONTAINER)?;
    let words = ["run", "LIB", "B", "OUT", "36"];
    assert!(rt; is_answered(alloc, &mut outside, &words, "read fault IN"));
    Ok(())
}

//! Texts of loop code: what is read of them, the places of their faults, and their canonical texts.

use std::alloc::{AllocError, Global};
use std::test::Fail;
use us_code::Program;
use us_code_print::print_program;
use us_code_reader::{CodeFault, parse_program};

/// The canonical text of a program, or nothing for want of memory.
fn printed(alloc: Global, program: &Program) -> Vec<u8> {
    match print_program(alloc, program) {
        Ok(text) => text,
        Err(_) => Vec::new(alloc),
    }
}

/// The canonical text of the program that begins at a place, and where the program ends; nothing if there is none.
fn one_text(alloc: Global, text: &[u8], from: usize) -> (Vec<u8>, usize) {
    if from > text.len() {
        return (Vec::new(alloc), 0);
    }
    match parse_program(alloc, text, from) {
        Ok(one) => (printed(alloc, &one.program), one.end),
        Err(_) => (Vec::new(alloc), 0),
    }
}

/// The fault of a text, if there is one.
fn fault_of(alloc: Global, text: &[u8]) -> Option<CodeFault> {
    match parse_program(alloc, text, 0) {
        Ok(_) => None,
        Err(fault) => Some(fault),
    }
}

/// It copies a container of three buffers.
const COPY: &str = "code 3 {
  phase {
    new b0[len0] word
    new b1[len1] word
    new b2[len2] word
    do {
      for r0 below len0 {
        let r1 = s0[r0]
        set b0[r0] = r1
      }
      for r0 below len1 {
        let r1 = s1[r0]
        set b1[r0] = r1
      }
      for r0 below len2 {
        let r1 = s2[r0]
        set b2[r0] = r1
      }
    }
  }
  give b0, b1, b2
}
";

#[test]
fn the_worked_program_is_read_and_printed(rt: HostRuntime) {
    let (written, end) = one_text(rt.alloc(), COPY.as_bytes(), 0);
    assert_eq!(rt; written.as_slice(), COPY.as_bytes());
    // its last byte ends the line
    assert_eq!(rt; end, 369);
}

#[test]
fn one_program_ends_at_its_brace(rt: HostRuntime) {
    let (written, end) = one_text(rt.alloc(), b"$ code 0 { give } $ }", 1);
    assert_eq!(rt; written.as_slice(), b"code 0 {\n  give\n}\n".as_slice());
    assert_eq!(rt; end, 17);
}

/// Texts, each with the canonical text of its program. Together they spell each part in each way.
const TEXTS: [(&[u8], &[u8]); 5] = [
    (b"code 00 { give } $", b"code 0 {\n  give\n}\n"),
    (
        b"#none\ncode 4096#some\r\n{give\tb4294967295,b0}}",
        b"code 4096 {\n  give b4294967295, b0\n}\n",
    ),
    (
        b"code 1{phase{do{}}phase{do{}}give}",
        b"code 1 {\n  phase {\n    do {\n    }\n  }\n  phase {\n    do {\n    }\n  }\n  give\n}\n",
    ),
    (
        b"code 01{phase{new b0[len0]word new b1[d7]below 4 do{let r0=b0[0]let r1=s0[r0]var r2=1 put r2=r2+1 set b0[r0]=r1 set s0[0]=0 for r3 below len0{}for r3 in r0 to r2 below 9{}if r0<r1{}else{}if r0==r1{let r3=0}when r1 below d0 as r4{}else{put r2=0}order b1 by b0,s0}dim d0 of r1 dim d1=d0*4 dim d2=len0+01}give b1,b0}",
        b"code 1 {\n  phase {\n    new b0[len0] word\n    new b1[d7] below 4\n    do {\n      let r0 = b0[0]\n      let r1 = s0[r0]\n      var r2 = 1\n      put r2 = r2 + 1\n      set b0[r0] = r1\n      set s0[0] = 0\n      for r3 below len0 {\n      }\n      for r3 in r0 to r2 below 9 {\n      }\n      if r0 < r1 {\n      } else {\n      }\n      if r0 == r1 {\n        let r3 = 0\n      }\n      when r1 below d0 as r4 {\n      } else {\n        put r2 = 0\n      }\n      order b1 by b0, s0\n    }\n    dim d0 of r1\n    dim d1 = d0 * 4\n    dim d2 = len0 + 1\n  }\n  give b1, b0\n}\n",
    ),
    (
        b"code 0{phase{do{let r0=(r9) let r1=9223372036854775807 let r2=size(len3) let r3=size(7) let r4=size(d4294967295) let r5=flat d0(r9,r8+1) let r6=next d1((r9)) let r7=up d2(r9*2) let r8=(r9-r8)-r7 let r9=r9-(r8-r7) let r10=r9+(r8*r7) let r11=(r9+r8)*r7 let r12=r9*(r8-r7) let r13=(r9*r8)*r7 let r14=r9*(r8*r7) let r15=r9*(r8/2) let r16=(r9*r8)/002 let r17=(r9+1)%3 let r18=r9%5/2*r8}}give}",
        b"code 0 {\n  phase {\n    do {\n      let r0 = r9\n      let r1 = 9223372036854775807\n      let r2 = size(len3)\n      let r3 = size(7)\n      let r4 = size(d4294967295)\n      let r5 = flat d0(r9, r8 + 1)\n      let r6 = next d1(r9)\n      let r7 = up d2(r9 * 2)\n      let r8 = r9 - r8 - r7\n      let r9 = r9 - (r8 - r7)\n      let r10 = r9 + r8 * r7\n      let r11 = (r9 + r8) * r7\n      let r12 = r9 * (r8 - r7)\n      let r13 = r9 * r8 * r7\n      let r14 = r9 * (r8 * r7)\n      let r15 = r9 * (r8 / 2)\n      let r16 = r9 * r8 / 2\n      let r17 = (r9 + 1) % 3\n      let r18 = r9 % 5 / 2 * r8\n    }\n  }\n  give\n}\n",
    ),
];

#[test]
fn programs_have_canonical_texts(rt: HostRuntime) {
    let alloc = rt.alloc();
    for (text, canonical) in TEXTS {
        let (written, _) = one_text(alloc, text, 0);
        assert_eq!(rt; written.as_slice(), canonical);
    }
}

/// Texts with a fault, which is at this place.
const FAULTS: [(&[u8], CodeFault); 62] = [
    // a word, a number in a name or a byte that the language lacks
    (b"Code 0 { give }", CodeFault::Token { place: 0 }),
    (b"code 0 { give b00 }", CodeFault::Token { place: 14 }),
    (b"code 0 { give b }", CodeFault::Token { place: 14 }),
    (b"code 0 { give b1x }", CodeFault::Token { place: 14 }),
    (b"code 0 { give b0 $ }", CodeFault::Token { place: 17 }),
    (b"code 0 { give r01 }", CodeFault::Token { place: 14 }),
    (
        b"code 3 { phase { do { let r00 = 1 } } give }",
        CodeFault::Token { place: 26 },
    ),
    (
        b"code 0 { phase { new b0[len01] word do { } } give }",
        CodeFault::Token { place: 24 },
    ),
    (
        b"code 0 { phase { new b0[1] words do { } } give }",
        CodeFault::Token { place: 27 },
    ),
    (
        b"code 0 { phase { do { if r1 > r2 { } } } give }",
        CodeFault::Token { place: 28 },
    ),
    // the parts of a program
    (b"", CodeFault::Form { place: 0 }),
    (b"# comment", CodeFault::Form { place: 9 }),
    (b"phase", CodeFault::Form { place: 0 }),
    (b"code { give }", CodeFault::Form { place: 5 }),
    (b"code 0 { }", CodeFault::Form { place: 9 }),
    (b"code 0 { give", CodeFault::Form { place: 13 }),
    (b"code 0 { give b0, }", CodeFault::Form { place: 18 }),
    (b"code 0 { give b0 b1 }", CodeFault::Form { place: 17 }),
    (b"code 0 { give s0 }", CodeFault::Form { place: 14 }),
    (
        b"code 0 { give r4294967296 }",
        CodeFault::Form { place: 14 },
    ),
    (b"code 0 { let r0 = 1 give }", CodeFault::Form { place: 9 }),
    // the parts of a phase
    (b"code 0 { phase { } give }", CodeFault::Form { place: 17 }),
    (
        b"code 0 { phase { do { } do { } } give }",
        CodeFault::Form { place: 24 },
    ),
    (
        b"code 0 { phase { do { } new b0[1] word } give }",
        CodeFault::Form { place: 24 },
    ),
    (
        b"code 0 { phase { dim d0 of 1 do { } } give }",
        CodeFault::Form { place: 17 },
    ),
    (
        b"code 0 { phase { new s0[1] word do { } } give }",
        CodeFault::Form { place: 21 },
    ),
    (
        b"code 0 { phase { new b0[r0] word do { } } give }",
        CodeFault::Form { place: 24 },
    ),
    (
        b"code 0 { phase { new b0[1] do { } } give }",
        CodeFault::Form { place: 27 },
    ),
    (
        b"code 0 { phase { new b0[1] below r0 do { } } give }",
        CodeFault::Form { place: 33 },
    ),
    (
        b"code 0 { phase { do { } dim len0 of 1 } give }",
        CodeFault::Form { place: 28 },
    ),
    (
        b"code 0 { phase { do { } dim d1 = len0 } give }",
        CodeFault::Form { place: 38 },
    ),
    (
        b"code 0 { phase { do { } dim d1 = len0 + 2 } give }",
        CodeFault::Form { place: 40 },
    ),
    (
        b"code 0 { phase { do { } dim d1 = len0 / 2 } give }",
        CodeFault::Form { place: 38 },
    ),
    // statements
    (
        b"code 0 { phase { do { let d0 = 1 } } give }",
        CodeFault::Form { place: 26 },
    ),
    (
        b"code 0 { phase { do { put r0 = b1[0] } } give }",
        CodeFault::Form { place: 31 },
    ),
    (
        b"code 0 { phase { do { set r0[0] = 1 } } give }",
        CodeFault::Form { place: 26 },
    ),
    (
        b"code 0 { phase { do { for r1 of 3 { } } } give }",
        CodeFault::Form { place: 29 },
    ),
    (
        b"code 0 { phase { do { for r1 in 0 below 3 { } } } give }",
        CodeFault::Form { place: 34 },
    ),
    (
        b"code 0 { phase { do { if r1 <= r2 { } } } give }",
        CodeFault::Form { place: 29 },
    ),
    (
        b"code 0 { phase { do { if r1 = r2 { } } } give }",
        CodeFault::Form { place: 28 },
    ),
    (
        b"code 0 { phase { do { if r1 === r2 { } } } give }",
        CodeFault::Form { place: 30 },
    ),
    (
        b"code 0 { phase { do { if r1 == r2 { } else } } give }",
        CodeFault::Form { place: 43 },
    ),
    (
        b"code 0 { phase { do { if r1 == r2 { } else { } else { } } } give }",
        CodeFault::Form { place: 47 },
    ),
    (
        b"code 0 { phase { do { when r1 below 3 { } } } give }",
        CodeFault::Form { place: 38 },
    ),
    (
        b"code 0 { phase { do { order b0 by } } give }",
        CodeFault::Form { place: 34 },
    ),
    // expressions
    (
        b"code 0 { phase { do { let r0 = -1 } } give }",
        CodeFault::Form { place: 31 },
    ),
    (
        b"code 0 { phase { do { let r0 = d0 } } give }",
        CodeFault::Form { place: 31 },
    ),
    (
        b"code 0 { phase { do { let r0 = b1 + 1 } } give }",
        CodeFault::Form { place: 34 },
    ),
    (
        b"code 0 { phase { do { let r0 = 1 / 0 } } give }",
        CodeFault::Form { place: 35 },
    ),
    (
        b"code 0 { phase { do { let r0 = 1 % 00 } } give }",
        CodeFault::Form { place: 35 },
    ),
    (
        b"code 0 { phase { do { let r0 = 1 / r1 } } give }",
        CodeFault::Form { place: 35 },
    ),
    (
        b"code 0 { phase { do { let r0 = size(r0) } } give }",
        CodeFault::Form { place: 36 },
    ),
    (
        b"code 0 { phase { do { let r0 = flat d0(r0) } } give }",
        CodeFault::Form { place: 41 },
    ),
    (
        b"code 0 { phase { do { let r0 = next len0(r0) } } give }",
        CodeFault::Form { place: 36 },
    ),
    // numbers
    (b"code 4097 { give }", CodeFault::TooBig { place: 5 }),
    (b"code 5000 { give }", CodeFault::TooBig { place: 5 }),
    (
        b"code 0 { give b4294967296 }",
        CodeFault::TooBig { place: 14 },
    ),
    (
        b"code 0 { give b340282366920938463463374607431768211456 }",
        CodeFault::TooBig { place: 14 },
    ),
    (
        b"code 0 { phase { new b0[len4294967296] word do { } } give }",
        CodeFault::TooBig { place: 24 },
    ),
    (
        b"code 0 { phase { new b0[340282366920938463463374607431768211456] word do { } } give }",
        CodeFault::TooBig { place: 24 },
    ),
    (
        b"code 0 { phase { do { let r0 = 9223372036854775808 } } give }",
        CodeFault::TooBig { place: 31 },
    ),
    (
        b"code 0 { phase { do { let r0 = 1 / 9223372036854775808 } } give }",
        CodeFault::TooBig { place: 35 },
    ),
];

#[test]
fn faults_of_code_stand_at_their_places(rt: HostRuntime) {
    let alloc = rt.alloc();
    for (text, fault) in FAULTS {
        assert_eq!(rt; fault_of(alloc, text), Some(fault));
    }
}

/// Puts a part so many times behind a text.
fn push_times(text: &mut Vec<u8>, part: &[u8], count: u32) -> Result<(), AllocError> {
    for _ in 0..count {
        text.extend_from_slice(part)?;
    }
    Ok(())
}

/// Five parts one behind the other, the second and the fourth so many times.
fn repeated(alloc: Global, parts: [&[u8]; 5], count: u32) -> Result<Vec<u8>, AllocError> {
    let mut text = Vec::from_slice(alloc, parts[0])?;
    push_times(&mut text, parts[1], count)?;
    text.extend_from_slice(parts[2])?;
    push_times(&mut text, parts[3], count)?;
    text.extend_from_slice(parts[4])?;
    Ok(text)
}

/// Parts of texts, how often the second and the fourth may stand, and where one more is too much.
const LIMITS: [([&[u8]; 5], u32, u64); 11] = [
    // 64 blocks, one in another
    (
        [
            b"code 0 { phase { do { ",
            b"if r0 < r1 { ",
            b"",
            b"} ",
            b"} } give }",
        ],
        63,
        852,
    ),
    // 64 parentheses
    (
        [
            b"code 0 { phase { do { let r0 = ",
            b"(",
            b"r1",
            b")",
            b"} } give }",
        ],
        64,
        95,
    ),
    // the parentheses behind a word, too
    (
        [
            b"code 0 { phase { do { let r0 = ",
            b"up d0(",
            b"r1",
            b")",
            b"} } give }",
        ],
        64,
        420,
    ),
    // 256 nodes
    (
        [
            b"code 0 { phase { do { let r0 = ",
            b"r1 + ",
            b"r1 / 2 ",
            b"",
            b"} } give }",
        ],
        127,
        671,
    ),
    // and a divisor is none
    (
        [
            b"code 0 { phase { do { let r0 = ",
            b"size(1) + ",
            b"1 % 3 ",
            b"",
            b"} } give }",
        ],
        127,
        1311,
    ),
    // an index and a value with 256 nodes each
    (
        [
            b"code 0 { phase { do { set b0[",
            b"r1 + ",
            b"r1 / 2] = r1 % 3",
            b" + r1",
            b"} } give }",
        ],
        127,
        669,
    ),
    // 4096 names are given
    ([b"code 0 { give b0", b", b1", b"", b"", b" }"], 4095, 16398),
    // 4096 names of an `order`, the ordered buffer among them
    (
        [
            b"code 0 { phase { do { order b0 by b1",
            b", s2",
            b"",
            b"",
            b" } } give }",
        ],
        4094,
        16414,
    ),
    // 65536 statements
    (
        [
            b"code 0 { phase { do { ",
            b"let r0 = 0 ",
            b"",
            b"",
            b"} } give }",
        ],
        65536,
        720918,
    ),
    // 65536 `new` lines
    (
        [
            b"code 0 { phase { ",
            b"new b0[1] word ",
            b"",
            b"",
            b"do { } } give }",
        ],
        65536,
        983057,
    ),
    // 65536 of all, in two phases
    (
        [
            b"code 0 { phase { new b0[1] word do { ",
            b"let r0 = 0 ",
            b"} } phase { do { ",
            b"",
            b"} dim d0 of 1 } give }",
        ],
        65534,
        720941,
    ),
];

#[test]
fn limits_of_code_are_reached(rt: HostRuntime) -> Result<(), Fail> {
    let alloc = rt.alloc();
    for (parts, count, _) in LIMITS {
        let text = repeated(alloc, parts, count)?;
        assert_eq!(rt; fault_of(alloc, text.as_slice()), None);
    }
    Ok(())
}

#[test]
fn one_more_is_too_big(rt: HostRuntime) -> Result<(), Fail> {
    let alloc = rt.alloc();
    for (parts, count, place) in LIMITS {
        let text = repeated(alloc, parts, count.saturating_add(1))?;
        let fault = fault_of(alloc, text.as_slice());
        assert_eq!(rt; fault, Some(CodeFault::TooBig { place }));
    }
    Ok(())
}

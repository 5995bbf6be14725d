//! Texts of declarations: what is read of them, the places of their faults, and their canonical texts.

use crate::samples::library;
use std::alloc::{AllocError, Global};
use std::test::Fail;
use us_decl::{Decl, Library, Name};
use us_parse::{DeclFault, parse_library, parse_one};
use us_print::print_decl;

/// The fault of a library, if there is one.
fn fault_of(alloc: Global, text: &[u8]) -> Option<DeclFault> {
    match parse_library(alloc, text) {
        Ok(_) => None,
        Err(fault) => Some(fault),
    }
}

/// The canonical text of a declaration, or nothing for want of memory.
fn printed(alloc: Global, decl: &Decl) -> Vec<u8> {
    match print_decl(alloc, decl) {
        Ok(text) => text,
        Err(_) => Vec::new(alloc),
    }
}

/// The canonical text of a copy of a declaration, or nothing for want of memory.
fn copied_text(alloc: Global, decl: &Decl) -> Vec<u8> {
    match decl.copy(alloc) {
        Ok(copy) => printed(alloc, &copy),
        Err(_) => Vec::new(alloc),
    }
}

/// The canonical texts of copies of a library's declarations, one after the other.
fn library_text(alloc: Global, library: &Library) -> Result<Vec<u8>, AllocError> {
    let mut text = Vec::new(alloc);
    for k in 0..library.count() {
        text.extend_from_slice(&copied_text(alloc, library.at(k)))?;
    }
    Ok(text)
}

/// Whether a library has so many declarations, and this name at this place.
fn is_library(alloc: Global, text: &[u8], count: usize, name: &str, place: usize) -> bool {
    match parse_library(alloc, text) {
        Ok(library) => library.count() == count && library.find(name) == Some(place),
        Err(_) => false,
    }
}

/// Whether a text is the canonical text of the library that it is read as.
fn is_canonical(alloc: Global, text: &[u8]) -> bool {
    match parse_library(alloc, text) {
        Ok(library) => match library_text(alloc, &library) {
            Ok(printed) => printed.as_slice() == text,
            Err(_) => false,
        },
        Err(_) => false,
    }
}

#[test]
fn the_worked_library_is_read_and_printed(rt: HostRuntime) -> Result<(), Fail> {
    let alloc = rt.alloc();
    let library = library(alloc)?;
    assert!(rt; is_library(alloc, library.as_bytes(), 12, "hyb", 10));
    assert!(rt; is_canonical(alloc, library.as_bytes()));
    Ok(())
}

/// Texts with a fault, which is at this place.
const FAULTS: [(&[u8], DeclFault); 17] = [
    (b"format x {", DeclFault::Form { place: 10 }),
    (
        b"format x { map (i / 0, j) }",
        DeclFault::Form { place: 20 },
    ),
    (b"format x { map (i * j) }", DeclFault::Token { place: 18 }),
    (
        b"format x { map (i / 2147483648, j) }",
        DeclFault::TooBig { place: 20 },
    ),
    (
        b"format x { map (2147483648 / 0, j) }",
        DeclFault::TooBig { place: 16 },
    ),
    (
        b"format x { map (i / 00, j) }",
        DeclFault::Form { place: 20 },
    ),
    (b"format x { map (i > j) }", DeclFault::Token { place: 18 }),
    (b"format x { map (i >= j) }", DeclFault::Form { place: 18 }),
    (b"format x { map (i) trim1 }", DeclFault::Form { place: 19 }),
    (
        b"format a { map (i, j) } format a { map (j, i) }",
        DeclFault::Repeated { place: 31 },
    ),
    // the name comes before what follows it
    (
        b"format a { map (i) } format a * broken",
        DeclFault::Repeated { place: 28 },
    ),
    // a fourth condition, and none that a rest stands behind
    (
        b"format x { part when n < 1 { map () } part when n < 2 { map () } part when n < 3 { map () } part when n < 4 { map () } rest { map () } }",
        DeclFault::TooBig { place: 92 },
    ),
    (
        b"format x { part when n < 1 { map () } part when n < 2 { map () } }",
        DeclFault::Form { place: 65 },
    ),
    // a 33rd node, by a divisor and by an operand
    (
        b"format x { map (i+i+i+i+i+i+i+i+i+i+i+i+i+i+i+i/2/2) }",
        DeclFault::TooBig { place: 49 },
    ),
    (
        b"format x { map (i+i+i+i+i+i+i+i+i+i+i+i+i+i+i+i+i) }",
        DeclFault::TooBig { place: 48 },
    ),
    // a 17th level, and a name of 33 letters
    (
        b"format x { map (i,i,i,i,i,i,i,i,i,i,i,i,i,i,i,i,i) }",
        DeclFault::TooBig { place: 48 },
    ),
    (
        b"format a123456789b123456789c123456789d12 { map () }",
        DeclFault::TooBig { place: 7 },
    ),
];

#[test]
fn faults_stand_at_their_places(rt: HostRuntime) {
    let alloc = rt.alloc();
    for (text, fault) in FAULTS {
        assert_eq!(rt; fault_of(alloc, text), Some(fault));
    }
}

/// Texts within the limits: 32 nodes, 32 parentheses, 16 levels; and one with comments and no blanks.
const FINE: [&[u8]; 4] = [
    b"format x { map (i+i+i+i+i+i+i+i+i+i+i+i+i+i+i+i/2) }",
    b"format x { map (((((((((((((((((((((((((((((((((i))))))))))))))))))))))))))))))))) }",
    b"format x { map (i,i,i,i,i,i,i,i,i,i,i,i,i,i,i,i) }",
    b"format#c\n x\t{map(#d\n)\r\n}# end",
];

#[test]
fn limits_are_reached(rt: HostRuntime) {
    let alloc = rt.alloc();
    for text in FINE {
        assert_eq!(rt; fault_of(alloc, text), None);
    }
    let deep =
        b"format x { map ((((((((((((((((((((((((((((((((((i)))))))))))))))))))))))))))))))))) }";
    assert_eq!(rt;
        fault_of(alloc, deep),
        Some(DeclFault::TooBig { place: 48 })
    );
}

/// So many declarations, named by their numbers.
fn numbered(alloc: Global, count: u32) -> Result<Vec<u8>, AllocError> {
    let mut text = Vec::new(alloc);
    for number in 0..count {
        let line = format!(in alloc; "format a{number} {{ map () }}\n")?;
        text.extend_from_slice(line.as_bytes())?;
    }
    Ok(text)
}

#[test]
fn a_library_has_256_declarations(rt: HostRuntime) -> Result<(), Fail> {
    let alloc = rt.alloc();
    let mut text = numbered(alloc, 256)?;
    assert!(rt; is_library(alloc, text.as_slice(), 256, "a255", 255));
    let place = text.len() as u64;
    text.extend_from_slice(b"format b { map () }")?;
    let fault = fault_of(alloc, text.as_slice());
    assert_eq!(rt; fault, Some(DeclFault::TooBig { place }));
    Ok(())
}

/// The canonical text of the declaration that begins at a place, and where it ends; nothing if there is none.
fn one_text(alloc: Global, text: &[u8], from: usize) -> (Vec<u8>, usize) {
    if from > text.len() {
        return (Vec::new(alloc), 0);
    }
    match parse_one(alloc, text, from) {
        Ok(one) => (printed(alloc, &one.decl), one.end),
        Err(_) => (Vec::new(alloc), 0),
    }
}

/// Texts, each with the canonical text of its declaration.
const TEXTS: [(&[u8], &[u8]); 5] = [
    (
        b"format bcsr{map(i/2,j/2,i%002,(j%2))trim 1 merge 1}x",
        b"format bcsr {\n  map (i / 2, j / 2, i % 2, j % 2)\n  trim 1\n  merge 1\n}\n",
    ),
    (
        b"format cisr { let lane,slot=schedule((i))into 2 map(lane,slot,((j-(i+1))-(i))/3) trim 2 pack(2,val)}",
        b"format cisr {\n  let lane, slot = schedule(i) into 2\n  map (lane, slot, (j - (i + 1) - i) / 3)\n  trim 2\n  pack (2, val)\n}\n",
    ),
    (
        b"format hyb { let k = enumerate(i) part when k < 1 { let e = enumerate(i) map (i, e, j) trim 2 } rest { map (i, j) trim 0, 1 } }",
        b"format hyb {\n  let k = enumerate(i)\n  part when k < 1 {\n    let e = enumerate(i)\n    map (i, e, j)\n    trim 2\n  }\n  rest {\n    map (i, j)\n    trim 0, 1\n  }\n}\n",
    ),
    (
        b" # none\nformat heavy { let n = sum(i) part when n >= 02 { map () } rest { map (reorder_) } }",
        b"format heavy {\n  let n = sum(i)\n  part when n >= 2 {\n    map ()\n  }\n  rest {\n    map (reorder_)\n  }\n}\n",
    ),
    (
        b"format by_weight { let n = sum(i) part when n >= 100 { map (i, j) trim 0 merge 0 } part when n >= 2 { map (i, j) trim 0, 1 merge 0, 1 } part when n < 1 { map (i) } rest { map (i, j) } }",
        b"format by_weight {\n  let n = sum(i)\n  part when n >= 100 {\n    map (i, j)\n    trim 0\n    merge 0\n  }\n  part when n >= 2 {\n    map (i, j)\n    trim 0, 1\n    merge 0, 1\n  }\n  part when n < 1 {\n    map (i)\n  }\n  rest {\n    map (i, j)\n  }\n}\n",
    ),
];

#[test]
fn declarations_have_canonical_texts(rt: HostRuntime) {
    let alloc = rt.alloc();
    for (text, canonical) in TEXTS {
        let (written, _) = one_text(alloc, text, 0);
        assert_eq!(rt; written.as_slice(), canonical);
    }
}

#[test]
fn one_declaration_ends_at_its_brace(rt: HostRuntime) {
    let (written, end) = one_text(rt.alloc(), b"* format x { map () } * }", 1);
    assert_eq!(rt; written.as_slice(), b"format x {\n  map ()\n}\n".as_slice());
    assert_eq!(rt; end, 21);
}

#[test]
fn names_are_no_words_of_the_grammar(rt: HostRuntime) {
    assert!(rt; Name::new("csr").is_some());
    assert!(rt; Name::new("format").is_none());
    assert!(rt; Name::new("2d").is_none());
}

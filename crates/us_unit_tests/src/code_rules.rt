//! Texts of loop code, and whether they keep the rules: the first item that breaks one, and its lowest rule.

ghost use Rattle.std.specs.Prelude.{◌≤◌, length};

use std::alloc::Global;
use us_bounds::{Unbound, Verified, VerifyFault, verify};
use us_code_reader::parse_program;
use us_code_texts::parsed_program_keeps_limits;

/// What is said of the program that begins at a place; nothing if there is none.
fn judged(alloc: Global, text: &[u8], from: usize) -> Option<Result<Verified, VerifyFault>>
    requires { from ≤ length text.now }
{
    match parse_program(alloc, text, from) {
        Ok(one) => {
            parsed_program_keeps_limits();
            Some(verify(alloc, one.program))
        }
        Err(_) => None,
    }
}

fn is_verified(alloc: Global, text: &[u8]) -> bool {
    match judged(alloc, text, 0) {
        Some(Ok(_)) => true,
        _ => false,
    }
}

/// The first item that breaks a rule, if there is one.
fn first_unbound(alloc: Global, text: &[u8]) -> Option<Unbound> {
    match judged(alloc, text, 0) {
        Some(Err(VerifyFault::Unbound(first))) => Some(first),
        _ => None,
    }
}

/// Texts, each with the first item that breaks a rule.
const BROKEN: [(&[u8], Unbound); 44] = [
    // each name is visible, and new where it is introduced
    (
        b"code 3 { give b0 }",
        Unbound {
            phase: 0,
            stmt: 0,
            rule: 1,
        },
    ),
    (
        b"code 0 { phase { do { let r0 = r1 } } give }",
        Unbound {
            phase: 0,
            stmt: 0,
            rule: 1,
        },
    ),
    (
        b"code 0 { phase { do { let r0 = 0 let r0 = 1 } } give }",
        Unbound {
            phase: 0,
            stmt: 1,
            rule: 1,
        },
    ),
    (
        b"code 0 { phase { do { for r0 below 2 { for r0 below 2 { } } } } give }",
        Unbound {
            phase: 0,
            stmt: 1,
            rule: 1,
        },
    ),
    (
        b"code 0 { phase { do { for r0 below 2 { } let r1 = r0 } } give }",
        Unbound {
            phase: 0,
            stmt: 1,
            rule: 1,
        },
    ),
    (
        b"code 0 { phase { do { if 0 < 1 { let r0 = 0 } else { let r0 = 0 let r1 = r2 } } } give }",
        Unbound {
            phase: 0,
            stmt: 3,
            rule: 1,
        },
    ),
    (
        b"code 0 { phase { do { when 1 below 2 as r0 { } else { let r1 = r0 } } } give }",
        Unbound {
            phase: 0,
            stmt: 1,
            rule: 1,
        },
    ),
    (
        b"code 0 { phase { do { let r0 = 0 put r0 = 1 } } give }",
        Unbound {
            phase: 0,
            stmt: 1,
            rule: 1,
        },
    ),
    (
        b"code 0 { phase { do { for r0 below 2 { put r0 = 1 } } } give }",
        Unbound {
            phase: 0,
            stmt: 1,
            rule: 1,
        },
    ),
    (
        b"code 1 { phase { do { for r0 below len0 { let r1 = s1[r0] } } } give }",
        Unbound {
            phase: 0,
            stmt: 1,
            rule: 1,
        },
    ),
    (
        b"code 1 { phase { new b0[len1] word do { } } give }",
        Unbound {
            phase: 0,
            stmt: 0,
            rule: 1,
        },
    ),
    (
        b"code 0 { phase { new b0[d0] word do { } dim d0 of 1 } give }",
        Unbound {
            phase: 0,
            stmt: 0,
            rule: 1,
        },
    ),
    (
        b"code 0 { phase { new b0[1] word new b0[1] word do { } } give }",
        Unbound {
            phase: 0,
            stmt: 1,
            rule: 1,
        },
    ),
    (
        b"code 0 { phase { do { } dim d0 of 1 dim d0 of 2 } give }",
        Unbound {
            phase: 0,
            stmt: 1,
            rule: 1,
        },
    ),
    (
        b"code 0 { phase { do { if 0 < 1 { let r0 = 1 } } dim d0 of r0 } give }",
        Unbound {
            phase: 0,
            stmt: 2,
            rule: 1,
        },
    ),
    (
        b"code 0 { phase { do { let r0 = 1 } } phase { do { } dim d0 of r0 } give }",
        Unbound {
            phase: 1,
            stmt: 0,
            rule: 1,
        },
    ),
    (
        b"code 0 { phase { new b0[1] word do { } } give b1, b1 }",
        Unbound {
            phase: 1,
            stmt: 0,
            rule: 1,
        },
    ),
    // an index fits below the length
    (
        b"code 1 { phase { do { let r0 = s0[0] } } give }",
        Unbound {
            phase: 0,
            stmt: 0,
            rule: 2,
        },
    ),
    (
        b"code 0 { phase { new b0[4] word do { let r0 = b0[4] } } give }",
        Unbound {
            phase: 0,
            stmt: 1,
            rule: 2,
        },
    ),
    (
        b"code 0 { phase { new b0[4] word do { for r0 below 5 { set b0[r0] = 1 } } } give }",
        Unbound {
            phase: 0,
            stmt: 2,
            rule: 2,
        },
    ),
    (
        b"code 0 { phase { new b0[4] word do { for r0 below 4 { set b0[r0 + 0] = 1 } } } give }",
        Unbound {
            phase: 0,
            stmt: 2,
            rule: 2,
        },
    ),
    (
        b"code 0 { phase { new b0[9223372036854775807] word do { set b0[9223372036854775807] = 1 } } give }",
        Unbound {
            phase: 0,
            stmt: 1,
            rule: 2,
        },
    ),
    (
        b"code 2 { phase { do { for r0 below len0 { let r1 = s0[r0] let r2 = s1[r1] } } } give }",
        Unbound {
            phase: 0,
            stmt: 2,
            rule: 2,
        },
    ),
    (
        b"code 0 { phase { new b0[2] below 2 do { set b0[2] = 2 } } give }",
        Unbound {
            phase: 0,
            stmt: 1,
            rule: 2,
        },
    ),
    // what is stored fits in the cell
    (
        b"code 0 { phase { new b0[2] below 2 do { set b0[0] = 2 } } give }",
        Unbound {
            phase: 0,
            stmt: 1,
            rule: 3,
        },
    ),
    (
        b"code 0 { phase { new b0[2] below 2 do { var r0 = 0 set b0[0] = r0 } } give }",
        Unbound {
            phase: 0,
            stmt: 2,
            rule: 3,
        },
    ),
    // both ends of a span fit below one dim that is the bound and one
    (
        b"code 0 { phase { do { for r0 in 0 to 4 below 3 { } } } give }",
        Unbound {
            phase: 0,
            stmt: 0,
            rule: 4,
        },
    ),
    (
        b"code 0 { phase { do { let r0 = 1 + 1 for r1 in r0 to 3 below 3 { } } } give }",
        Unbound {
            phase: 0,
            stmt: 1,
            rule: 4,
        },
    ),
    (
        b"code 0 { phase { do { } dim d0 of 5 dim d1 = d0 + 1 dim d2 = d0 + 1 } phase { do { for r0 below d1 { for r1 below d2 { for r2 in r0 to r1 below d0 { } } } } } give }",
        Unbound {
            phase: 1,
            stmt: 2,
            rule: 4,
        },
    ),
    (
        b"code 0 { phase { do { } dim d0 of 5 dim d1 = d0 + 1 } phase { new b0[d1] below d1 do { for r0 below d1 { let r1 = b0[r0] for r2 in r1 to r0 below d1 { } } } } give }",
        Unbound {
            phase: 1,
            stmt: 3,
            rule: 4,
        },
    ),
    // `flat`, and `next` and `up`
    (
        b"code 0 { phase { do { } dim d0 of 3 dim d1 of 4 dim d2 = d0 * d1 } phase { do { for r0 below d0 { for r1 below d1 { let r2 = flat d2(r1, r0) } } } } give }",
        Unbound {
            phase: 1,
            stmt: 2,
            rule: 5,
        },
    ),
    (
        b"code 0 { phase { do { } dim d0 of 3 } phase { do { for r0 below d0 { let r1 = flat d0(r0, r0) } } } give }",
        Unbound {
            phase: 1,
            stmt: 1,
            rule: 5,
        },
    ),
    (
        b"code 0 { phase { do { } dim d0 of 3 } phase { do { for r0 below d0 { let r1 = next d0(r0) } } } give }",
        Unbound {
            phase: 1,
            stmt: 1,
            rule: 6,
        },
    ),
    (
        b"code 0 { phase { do { } dim d0 of 3 dim d1 = d0 + 1 } phase { do { let r0 = up d1(0 + 0) } } give }",
        Unbound {
            phase: 1,
            stmt: 0,
            rule: 6,
        },
    ),
    // the cells that are put in order, and the keys
    (
        b"code 0 { phase { new b0[3] below 2 new b1[3] word do { order b0 by b1 } } give }",
        Unbound {
            phase: 0,
            stmt: 2,
            rule: 7,
        },
    ),
    (
        b"code 0 { phase { new b0[3] below 4 new b1[3] word do { order b0 by b1 } } give }",
        Unbound {
            phase: 0,
            stmt: 2,
            rule: 7,
        },
    ),
    (
        b"code 0 { phase { new b0[3] below 3 new b1[4] word do { order b0 by b1 } } give }",
        Unbound {
            phase: 0,
            stmt: 2,
            rule: 7,
        },
    ),
    (
        b"code 0 { phase { new b0[3] below 3 do { order b0 by b0 } } give }",
        Unbound {
            phase: 0,
            stmt: 1,
            rule: 7,
        },
    ),
    (
        b"code 2 { phase { do { order s0 by s1 } } give }",
        Unbound {
            phase: 0,
            stmt: 0,
            rule: 7,
        },
    ),
    // room for 0 in a new cell
    (
        b"code 3 { phase { new b0[len0] below 0 do { } } give b0 }",
        Unbound {
            phase: 0,
            stmt: 0,
            rule: 8,
        },
    ),
    (
        b"code 2 { phase { new b0[len0] below len1 do { } } give b0 }",
        Unbound {
            phase: 0,
            stmt: 0,
            rule: 8,
        },
    ),
    (
        b"code 0 { phase { do { } dim d0 of 3 } phase { new b0[3] below d0 do { } } give }",
        Unbound {
            phase: 1,
            stmt: 0,
            rule: 8,
        },
    ),
    // sources stay, and nothing is given twice
    (
        b"code 3 { phase { do { for r0 below len0 { set s0[r0] = 1 } } } give }",
        Unbound {
            phase: 0,
            stmt: 1,
            rule: 9,
        },
    ),
    (
        b"code 0 { phase { new b0[1] word do { } } give b0, b0 }",
        Unbound {
            phase: 1,
            stmt: 0,
            rule: 10,
        },
    ),
];

#[test]
fn the_first_item_that_breaks_a_rule_is_told(rt: HostRuntime) {
    let alloc = rt.alloc();
    for (text, first) in BROKEN {
        assert_eq!(rt; first_unbound(alloc, text), Some(first));
    }
}

/// Texts that keep the rules, often hardly.
const KEPT: [&[u8]; 16] = [
    b"code 0 { give }",
    b"code 0 { phase { do { for r0 below 9223372036854775807 { } } } give }",
    b"code 0 { phase { do { for r0 below 2 { let r1 = 0 } let r1 = 0 var r2 = r1 put r2 = r2 + 1 } } give }",
    b"code 0 { phase { do { let r0 = 1 } dim d0 of r0 } phase { do { } dim d1 = d0 + 1 } give }",
    b"code 0 { phase { new b0[4] word do { let r0 = b0[3] for r1 below 4 { set b0[r1] = r0 } } } give b0 }",
    b"code 0 { phase { new b0[9223372036854775807] word do { set b0[9223372036854775806] = 1 } } give }",
    b"code 0 { phase { new b0[2] below 2 do { set b0[0] = 1 } } give }",
    b"code 2 { phase { do { for r0 below len0 { let r1 = s0[r0] when r1 below len1 as r2 { let r3 = s1[r2] } } } } give }",
    b"code 0 { phase { do { for r0 in 0 to 3 below 3 { } } } give }",
    b"code 0 { phase { do { } dim d0 of 5 dim d1 = d0 + 1 } phase { new b0[d1] below d1 do { for r0 below d1 { let r1 = b0[r0] for r2 in r1 to r0 below d0 { } } } } give }",
    b"code 0 { phase { do { } dim d0 of 3 dim d1 of 4 dim d2 = d0 * d1 } phase { new b0[d2] word do { for r0 below d0 { for r1 below d1 { set b0[flat d2(r0, r1)] = 0 } } } } give }",
    b"code 0 { phase { do { } dim d0 of 3 dim d1 = d0 + 1 } phase { new b0[d1] word do { for r0 below d0 { set b0[next d1(r0)] = 0 set b0[up d1(r0)] = 1 } } } give }",
    b"code 0 { phase { new b0[3] below 3 new b1[3] word do { order b0 by b1, b1 } } give b0 }",
    b"code 1 { phase { new b0[len0] below len0 do { order b0 by s0 } } give b0 }",
    b"code 0 { phase { new b0[0] below 0 do { } } give b0 }",
    b"code 0 { phase { do { } dim d0 of 3 dim d1 = d0 + 1 } phase { new b0[3] below d1 do { } } give }",
];

#[test]
fn what_keeps_the_rules_is_verified(rt: HostRuntime) {
    let alloc = rt.alloc();
    for text in KEPT {
        assert!(rt; is_verified(alloc, text));
    }
}

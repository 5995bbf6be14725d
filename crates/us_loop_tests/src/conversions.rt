//! Programs that convert from one format to another: what they give for small matrices in the worked formats, whose buffers
//! were worked out by hand.

use crate::machine::{are_lists, given, sources_of};
use crate::samples::{
    AOS, BCSR, CISR, COO, CSC, CSR, DCSR, DIA, ELL, HEAVY, HYB, JDS, TRI, format_in,
};
use std::alloc::Global;
use us_bounds::Verified;
use us_convert::compile;
use us_judge::Format;
use us_matrix::Shape;

/// A format, and the buffers of three matrices of three rows and four columns.
#[derive(Clone, Copy)]
struct Kept {
    format: &'static str,
    sample: &'static [&'static [i64]],
    tied: &'static [&'static [i64]],
    empty: &'static [&'static [i64]],
}

/// The worked formats.
const KEPT: [Kept; 13] = [
    Kept {
        format: CSR,
        sample: &[&[0, 2, 2, 3], &[0, 2, 1], &[5, 2, -7]],
        tied: &[&[0, 1, 3, 4], &[3, 0, 2, 1], &[1, 2, 3, 4]],
        empty: &[&[0, 0, 0, 0], &[], &[]],
    },
    Kept {
        format: CSC,
        sample: &[&[0, 1, 2, 3, 3], &[0, 2, 0], &[5, -7, 2]],
        tied: &[&[0, 1, 2, 3, 4], &[1, 2, 1, 0], &[2, 4, 3, 1]],
        empty: &[&[0, 0, 0, 0, 0], &[], &[]],
    },
    Kept {
        format: COO,
        sample: &[&[0, 3], &[0, 0, 2], &[0, 2, 1], &[5, 2, -7]],
        tied: &[&[0, 4], &[0, 1, 1, 2], &[3, 0, 2, 1], &[1, 2, 3, 4]],
        empty: &[&[0, 0], &[], &[], &[]],
    },
    Kept {
        format: DCSR,
        sample: &[&[0, 2], &[0, 2], &[0, 2, 3], &[0, 2, 1], &[5, 2, -7]],
        tied: &[
            &[0, 3],
            &[0, 1, 2],
            &[0, 1, 3, 4],
            &[3, 0, 2, 1],
            &[1, 2, 3, 4],
        ],
        empty: &[&[0, 0], &[], &[0], &[], &[]],
    },
    Kept {
        format: BCSR,
        sample: &[
            &[0, 2, 3],
            &[0, 1, 0],
            &[5, 0, 0, 0, 2, 0, 0, 0, 0, -7, 0, 0],
        ],
        tied: &[
            &[0, 2, 3],
            &[0, 1, 0],
            &[0, 0, 2, 0, 0, 1, 3, 0, 0, 4, 0, 0],
        ],
        empty: &[&[0, 0, 0], &[], &[]],
    },
    Kept {
        format: DIA,
        sample: &[&[0, 3], &[1, 2, 4], &[0, 0, -7, 5, 0, 0, 2, 0, 0]],
        tied: &[&[0, 3], &[1, 3, 5], &[0, 2, 4, 0, 3, 0, 1, 0, 0]],
        empty: &[&[0, 0], &[], &[]],
    },
    Kept {
        format: ELL,
        sample: &[&[2], &[0, 2, 0, 0, 1, 0], &[5, 2, 0, 0, -7, 0]],
        tied: &[&[2], &[3, 0, 0, 2, 1, 0], &[1, 0, 2, 3, 4, 0]],
        empty: &[&[0], &[], &[]],
    },
    Kept {
        format: JDS,
        sample: &[&[2], &[0, 2, 1], &[0, 2, 1, 0, 0, 0], &[5, 2, -7, 0, 0, 0]],
        tied: &[&[2], &[1, 0, 2], &[0, 2, 3, 0, 1, 0], &[2, 3, 1, 0, 4, 0]],
        empty: &[&[0], &[0, 1, 2], &[], &[]],
    },
    Kept {
        format: CISR,
        sample: &[
            &[2],
            &[1, 0, 2, 3],
            &[0, 2, 2, 2, 3],
            &[0, 2, 1],
            &[5, 2, -7],
        ],
        tied: &[
            &[2],
            &[1, 3, 2, 0],
            &[0, 1, 2, 4, 4],
            &[3, 1, 0, 2],
            &[1, 4, 2, 3],
        ],
        empty: &[&[3], &[1, 2, 3, 0, 0, 0], &[0, 0, 0, 0, 0, 0, 0], &[], &[]],
    },
    Kept {
        format: AOS,
        sample: &[&[0, 3], &[0, 0, 5, 0, 2, 2, 2, 1, -7]],
        tied: &[&[0, 4], &[0, 3, 1, 1, 0, 2, 1, 2, 3, 2, 1, 4]],
        empty: &[&[0, 0], &[]],
    },
    Kept {
        format: HYB,
        sample: &[&[1], &[0, 0, 1], &[5, 0, -7], &[0, 1], &[0], &[2], &[2]],
        tied: &[&[1], &[3, 0, 1], &[1, 2, 4], &[0, 1], &[1], &[2], &[3]],
        empty: &[&[0], &[], &[], &[0, 0], &[], &[], &[]],
    },
    Kept {
        format: HEAVY,
        sample: &[&[0, 2, 2, 2], &[0, 2], &[5, 2], &[0, 1], &[2], &[1], &[-7]],
        tied: &[
            &[0, 0, 2, 2],
            &[0, 2],
            &[2, 3],
            &[0, 2],
            &[0, 2],
            &[3, 1],
            &[1, 4],
        ],
        empty: &[&[0, 0, 0, 0], &[], &[], &[0, 0], &[], &[], &[]],
    },
    Kept {
        format: TRI,
        sample: &[
            &[0, 2],
            &[0, 2],
            &[0, 1],
            &[5, -7],
            &[0, 1],
            &[0],
            &[2],
            &[2],
            &[0, 0],
            &[],
            &[],
            &[],
        ],
        tied: &[
            &[0, 3],
            &[0, 1, 2],
            &[3, 0, 1],
            &[1, 2, 4],
            &[0, 1],
            &[1],
            &[2],
            &[3],
            &[0, 0],
            &[],
            &[],
            &[],
        ],
        empty: &[
            &[0, 0],
            &[],
            &[],
            &[],
            &[0, 0],
            &[],
            &[],
            &[],
            &[0, 0],
            &[],
            &[],
            &[],
        ],
    },
];

/// The program from one format to another, for matrices of three rows and four columns.
fn program(alloc: Global, from: &Format, to: &Format) -> Option<Verified> {
    let shape = Shape::new(3, 4)?;
    match compile(alloc, from, to, shape) {
        Ok(code) => Some(code),
        Err(_) => None,
    }
}

/// The program from one format to another, which these texts declare.
fn program_between(alloc: Global, from: &str, to: &str) -> Option<Verified> {
    match (format_in(alloc, from), format_in(alloc, to)) {
        (Some(from), Some(to)) => program(alloc, &from, &to),
        _ => None,
    }
}

/// Whether a program makes these lists of those.
fn makes(alloc: Global, code: &Verified, lists: &[&[i64]], wanted: &[&[i64]]) -> bool {
    match sources_of(alloc, lists) {
        Ok(sources) => match given(alloc, code, &sources) {
            Some(lists) => are_lists(&lists, wanted),
            None => false,
        },
        Err(_) => false,
    }
}

/// Whether the program from one format to another converts the three matrices.
fn is_converted(alloc: Global, from: &Kept, to: &Kept) -> bool {
    match program_between(alloc, from.format, to.format) {
        Some(code) => {
            makes(alloc, &code, from.sample, to.sample)
                && makes(alloc, &code, from.tied, to.tied)
                && makes(alloc, &code, from.empty, to.empty)
        }
        None => false,
    }
}

#[test]
fn formats_are_converted_to_others(rt: HostRuntime) {
    for step in [0, 1, 5] {
        for (k, from) in KEPT.iter().enumerate() {
            let to = KEPT[(k + step) % 13];
            let holds = is_converted(rt.alloc(), from, &to);
            assert!(rt; holds, "{} to {}", from.format, to.format);
        }
    }
}

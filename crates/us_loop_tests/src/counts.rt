//! The code that counts queries and that selects the entries of a part: what it gives for small matrices, whose entries are
//! given from the last to the first.

ghost use Rattle.std.specs.Prelude.{◌≤◌, length};
ghost use Rattle.us_judge.specs.Views.{declaration_of};

use crate::entries::{EMPTY, Entries, FULL_COLUMN, FULL_ROW, SAMPLE, TIED, gives};
use crate::machine::{fresh_behind_columns, given_columns, text_behind_columns};
use crate::samples::{CSR, HEAVY, HYB, TRI, format_in};
use std::alloc::Global;
use us_code::{ListPiece, QueryPiece};
use us_gen_queries::{count_queries, select};
use us_judge::Format;
use us_matrix::Shape;

const SUMS: &str = "format x { let n = sum(i) let m = sum(j) map (i, j) trim 0, 1 }";

const NUMBERS: &str = "format x {
  let k = enumerate(i)
  let l = enumerate(j)
  let d = enumerate(j - i)
  map (i, j)
  trim 0, 1
}";

const RANKS: &str = "format x { let p = reorder(i) let q = reorder(j) map (i, j) trim 0, 1 }";

const LANES: &str = "format x {
  let a, s = schedule(i) into 2
  let b, t = schedule(j) into 3
  map (i, j)
  trim 0, 1
}";

/// Queries, entries, and the column of each variable, then the extents, then the tables.
const COUNTS: [(&str, Entries, &[&[i64]]); 20] = [
    (SUMS, SAMPLE, &[&[1, 2, 2], &[1, 1, 1]]),
    (SUMS, TIED, &[&[1, 2, 2, 1], &[1, 1, 1, 1]]),
    (SUMS, EMPTY, &[&[], &[]]),
    (SUMS, FULL_ROW, &[&[3, 3, 3], &[1, 1, 1]]),
    (SUMS, FULL_COLUMN, &[&[1, 1, 1], &[3, 3, 3]]),
    (
        NUMBERS,
        SAMPLE,
        &[&[0, 1, 0], &[0, 0, 0], &[0, 0, 0], &[2], &[1], &[1]],
    ),
    // two entries stand on the diagonal -1
    (
        NUMBERS,
        TIED,
        &[
            &[0, 1, 0, 0],
            &[0, 0, 0, 0],
            &[1, 0, 0, 0],
            &[2],
            &[1],
            &[2],
        ],
    ),
    (NUMBERS, EMPTY, &[&[], &[], &[], &[0], &[0], &[0]]),
    (
        NUMBERS,
        FULL_ROW,
        &[&[2, 1, 0], &[0, 0, 0], &[0, 0, 0], &[3], &[1], &[1]],
    ),
    (
        NUMBERS,
        FULL_COLUMN,
        &[&[0, 0, 0], &[2, 1, 0], &[0, 0, 0], &[1], &[3], &[1]],
    ),
    (
        RANKS,
        SAMPLE,
        &[&[1, 0, 0], &[1, 2, 0], &[0, 2, 1], &[0, 1, 2, 3]],
    ),
    // of two equal rows the lower one comes first
    (
        RANKS,
        TIED,
        &[&[2, 0, 0, 1], &[1, 2, 0, 3], &[1, 0, 2], &[0, 1, 2, 3]],
    ),
    (RANKS, EMPTY, &[&[], &[], &[0, 1, 2], &[0, 1, 2, 3]]),
    (
        RANKS,
        FULL_ROW,
        &[&[0, 0, 0], &[2, 1, 0], &[1, 0], &[0, 1, 2]],
    ),
    (
        RANKS,
        FULL_COLUMN,
        &[&[2, 1, 0], &[0, 0, 0], &[0, 1, 2], &[0, 1]],
    ),
    // row 1 has no entry, so row 2 comes to its lane; column 3 comes to the first lane
    (
        LANES,
        SAMPLE,
        &[
            &[1, 0, 0],
            &[1, 0, 0],
            &[1, 2, 0],
            &[0, 0, 0],
            &[2],
            &[2],
            &[1, 0, 2, 3],
            &[1, 4, 2, 0, 3, 0],
        ],
    ),
    (
        LANES,
        TIED,
        &[
            &[0, 1, 1, 0],
            &[1, 0, 0, 0],
            &[1, 2, 0, 0],
            &[0, 0, 0, 1],
            &[2],
            &[2],
            &[1, 3, 2, 0],
            &[1, 4, 2, 0, 3, 0],
        ],
    ),
    // the load of the first lane stays 0
    (
        LANES,
        EMPTY,
        &[
            &[],
            &[],
            &[],
            &[],
            &[3],
            &[4],
            &[1, 2, 3, 0, 0, 0],
            &[1, 2, 3, 4, 0, 0, 0, 0, 0, 0, 0, 0],
        ],
    ),
    (
        LANES,
        FULL_ROW,
        &[
            &[0, 0, 0],
            &[1, 1, 1],
            &[2, 1, 0],
            &[0, 0, 0],
            &[2],
            &[1],
            &[1, 2, 0, 0],
            &[1, 2, 3],
        ],
    ),
    (
        LANES,
        FULL_COLUMN,
        &[
            &[0, 1, 0],
            &[1, 0, 0],
            &[0, 0, 0],
            &[0, 0, 0],
            &[2],
            &[1],
            &[1, 3, 2, 0],
            &[1, 2, 0],
        ],
    ),
];

/// A format, a part of it, and its entries of each of the matrices.
#[derive(Clone, Copy)]
struct Share {
    format: &'static str,
    part: usize,
    sample: [&'static [i64]; 3],
    tied: [&'static [i64]; 3],
    full_row: [&'static [i64]; 3],
    full_column: [&'static [i64]; 3],
}

const NONE: [&[i64]; 3] = [&[], &[], &[]];

const SHARES: [Share; 8] = [
    // the part of an undivided format has all entries
    Share {
        format: CSR,
        part: 1,
        sample: [&[2, 0, 0], &[1, 2, 0], &[-7, 2, 5]],
        tied: [&[2, 1, 1, 0], &[1, 2, 0, 3], &[4, 3, 2, 1]],
        full_row: [&[1, 1, 1], &[2, 1, 0], &[3, 2, 1]],
        full_column: [&[2, 1, 0], &[0, 0, 0], &[3, 2, 1]],
    },
    // the first entry of each row, then the others
    Share {
        format: HYB,
        part: 1,
        sample: [&[2, 0], &[1, 0], &[-7, 5]],
        tied: [&[2, 1, 0], &[1, 0, 3], &[4, 2, 1]],
        full_row: [&[1], &[0], &[1]],
        full_column: [&[2, 1, 0], &[0, 0, 0], &[3, 2, 1]],
    },
    Share {
        format: HYB,
        part: 2,
        sample: [&[0], &[2], &[2]],
        tied: [&[1], &[2], &[3]],
        full_row: [&[1, 1], &[2, 1], &[3, 2]],
        full_column: NONE,
    },
    // the rows with two entries or more, then the others
    Share {
        format: HEAVY,
        part: 1,
        sample: [&[0, 0], &[2, 0], &[2, 5]],
        tied: [&[1, 1], &[2, 0], &[3, 2]],
        full_row: [&[1, 1, 1], &[2, 1, 0], &[3, 2, 1]],
        full_column: NONE,
    },
    Share {
        format: HEAVY,
        part: 2,
        sample: [&[2], &[1], &[-7]],
        tied: [&[2, 0], &[1, 3], &[4, 1]],
        full_row: NONE,
        full_column: [&[2, 1, 0], &[0, 0, 0], &[3, 2, 1]],
    },
    Share {
        format: TRI,
        part: 1,
        sample: [&[2, 0], &[1, 0], &[-7, 5]],
        tied: [&[2, 1, 0], &[1, 0, 3], &[4, 2, 1]],
        full_row: [&[1], &[0], &[1]],
        full_column: [&[2, 1, 0], &[0, 0, 0], &[3, 2, 1]],
    },
    Share {
        format: TRI,
        part: 2,
        sample: [&[0], &[2], &[2]],
        tied: [&[1], &[2], &[3]],
        full_row: [&[1], &[1], &[2]],
        full_column: NONE,
    },
    Share {
        format: TRI,
        part: 3,
        sample: NONE,
        tied: NONE,
        full_row: [&[1], &[2], &[3]],
        full_column: NONE,
    },
];

/// The numbers of the columns of the variables, and of the buffers of extents and tables.
fn counted(alloc: Global, piece: &QueryPiece) -> Option<Vec<u32>> {
    let mut give = Vec::from_slice(alloc, piece.columns.vars.as_slice()).ok()?;
    match give.extend_from_slice(piece.buffers.as_slice()) {
        Ok(()) => Some(give),
        Err(_) => None,
    }
}

/// The text of the code that counts the queries of a format's first part over the columns of its entries.
fn counts_text(alloc: Global, format: &Format, shape: Shape) -> Option<Vec<u8>> {
    if format.parts() == 0 {
        return None;
    }
    let mut fresh = fresh_behind_columns();
    match count_queries(alloc, format, 1, shape, &given_columns(), &mut fresh) {
        Ok(piece) => {
            let give = counted(alloc, &piece)?;
            text_behind_columns(alloc, piece.phases, &give)
        }
        Err(_) => None,
    }
}

/// The text of the code that selects the entries of a part, counted from 1, from the columns of all entries.
fn share_text(alloc: Global, format: &Format, part: usize, shape: Shape) -> Option<Vec<u8>>
    requires from_one { 1 ≤ part }
    requires part { part ≤ length (declaration_of format.now).parts }
{
    let mut fresh = fresh_behind_columns();
    match select(alloc, format, part, shape, &given_columns(), &mut fresh) {
        Ok(ListPiece { phases, columns }) => {
            text_behind_columns(alloc, phases, &[columns.i, columns.j, columns.v])
        }
        Err(_) => None,
    }
}

/// Whether the code that counts the queries of a format gives these lists.
fn is_counted(alloc: Global, format: &Format, entries: &Entries, wanted: &[&[i64]]) -> bool {
    let shape = Shape {
        rows: entries.rows,
        cols: entries.cols,
    };
    match counts_text(alloc, format, shape) {
        Some(text) => gives(alloc, &text, entries, wanted),
        None => false,
    }
}

/// Whether the code that selects the entries of a part gives these columns.
fn is_selected(
    alloc: Global,
    format: &Format,
    part: usize,
    entries: &Entries,
    wanted: &[&[i64]],
) -> bool {
    if part == 0 || part > format.parts() {
        return false;
    }
    let shape = Shape {
        rows: entries.rows,
        cols: entries.cols,
    };
    match share_text(alloc, format, part, shape) {
        Some(text) => gives(alloc, &text, entries, wanted),
        None => false,
    }
}

#[test]
fn queries_are_counted(rt: HostRuntime) {
    let alloc = rt.alloc();
    for (text, entries, wanted) in COUNTS {
        let holds = match format_in(alloc, text) {
            Some(format) => is_counted(alloc, &format, &entries, wanted),
            None => false,
        };
        assert!(rt; holds, "{text} {entries:?}");
    }
}

/// Whether the entries of the part are selected from each of the matrices.
fn has_share(alloc: Global, format: &Format, share: &Share) -> bool {
    let part = share.part;
    is_selected(alloc, format, part, &SAMPLE, &share.sample)
        && is_selected(alloc, format, part, &TIED, &share.tied)
        && is_selected(alloc, format, part, &EMPTY, &NONE)
        && is_selected(alloc, format, part, &FULL_ROW, &share.full_row)
        && is_selected(alloc, format, part, &FULL_COLUMN, &share.full_column)
}

#[test]
fn entries_of_a_part_are_selected(rt: HostRuntime) {
    let alloc = rt.alloc();
    for share in SHARES {
        let holds = match format_in(alloc, share.format) {
            Some(format) => has_share(alloc, &format, &share),
            None => false,
        };
        assert!(rt; holds, "{} part {}", share.format, share.part);
    }
}

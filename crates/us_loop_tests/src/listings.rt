//! The code that lists the entries of a format's buffers: what it gives for small matrices in each of the worked formats.

ghost use Rattle.us_matrix.specs.Map.{IsSide};

use crate::machine::{are_lists, code_text, lists_of};
use crate::samples::{
    AOS, BCSR, CISR, COO, CSC, CSR, DCSR, DIA, ELL, EMPTY, HEAVY, HYB, JDS, SAMPLE, TIED, TRI,
    format_in, matrix_in,
};
use std::alloc::{AllocError, Global};
use us_code::{Fresh, ListPiece};
use us_gen_listing::unpack;
use us_judge::Format;
use us_levels::build_plain;
use us_matrix::{Matrix, Shape};

/// The rows, the columns and the values of entries.
type Columns = [&'static [i64]; 3];

/// A format, and the entries of two matrices part by part and by position.
#[derive(Clone, Copy)]
struct Listing {
    format: &'static str,
    sample: Columns,
    tied: Columns,
}

/// The worked formats.
const LISTINGS: [Listing; 13] = [
    Listing {
        format: CSR,
        sample: [&[0, 0, 2], &[0, 2, 1], &[5, 2, -7]],
        tied: [&[0, 1, 1, 2], &[3, 0, 2, 1], &[1, 2, 3, 4]],
    },
    // by columns
    Listing {
        format: CSC,
        sample: [&[0, 2, 0], &[0, 1, 2], &[5, -7, 2]],
        tied: [&[1, 2, 1, 0], &[0, 1, 2, 3], &[2, 4, 3, 1]],
    },
    Listing {
        format: COO,
        sample: [&[0, 0, 2], &[0, 2, 1], &[5, 2, -7]],
        tied: [&[0, 1, 1, 2], &[3, 0, 2, 1], &[1, 2, 3, 4]],
    },
    Listing {
        format: DCSR,
        sample: [&[0, 0, 2], &[0, 2, 1], &[5, 2, -7]],
        tied: [&[0, 1, 1, 2], &[3, 0, 2, 1], &[1, 2, 3, 4]],
    },
    // of the blocks of the first two rows the left one comes first
    Listing {
        format: BCSR,
        sample: [&[0, 0, 2], &[0, 2, 1], &[5, 2, -7]],
        tied: [&[1, 0, 1, 2], &[0, 3, 2, 1], &[2, 1, 3, 4]],
    },
    // by the diagonals -1, 0 and 2, and by -1, 1 and 3
    Listing {
        format: DIA,
        sample: [&[2, 0, 0], &[1, 0, 2], &[-7, 5, 2]],
        tied: [&[1, 2, 1, 0], &[0, 1, 2, 3], &[2, 4, 3, 1]],
    },
    Listing {
        format: ELL,
        sample: [&[0, 0, 2], &[0, 2, 1], &[5, 2, -7]],
        tied: [&[0, 1, 1, 2], &[3, 0, 2, 1], &[1, 2, 3, 4]],
    },
    // the longer row comes first
    Listing {
        format: JDS,
        sample: [&[0, 0, 2], &[0, 2, 1], &[5, 2, -7]],
        tied: [&[1, 1, 0, 2], &[0, 2, 3, 1], &[2, 3, 1, 4]],
    },
    // the rows 0 and 2 of the second matrix are in the first lane
    Listing {
        format: CISR,
        sample: [&[0, 0, 2], &[0, 2, 1], &[5, 2, -7]],
        tied: [&[0, 2, 1, 1], &[3, 1, 0, 2], &[1, 4, 2, 3]],
    },
    Listing {
        format: AOS,
        sample: [&[0, 0, 2], &[0, 2, 1], &[5, 2, -7]],
        tied: [&[0, 1, 1, 2], &[3, 0, 2, 1], &[1, 2, 3, 4]],
    },
    // the first entry of each row, then the others
    Listing {
        format: HYB,
        sample: [&[0, 2, 0], &[0, 1, 2], &[5, -7, 2]],
        tied: [&[0, 1, 2, 1], &[3, 0, 1, 2], &[1, 2, 4, 3]],
    },
    // the row with two entries, then the others
    Listing {
        format: HEAVY,
        sample: [&[0, 0, 2], &[0, 2, 1], &[5, 2, -7]],
        tied: [&[1, 1, 0, 2], &[0, 2, 3, 1], &[2, 3, 1, 4]],
    },
    Listing {
        format: TRI,
        sample: [&[0, 2, 0], &[0, 1, 2], &[5, -7, 2]],
        tied: [&[0, 1, 2, 1], &[3, 0, 1, 2], &[1, 2, 4, 3]],
    },
];

/// The text of the code that lists the entries of a format's buffers for matrices of a shape.
fn listing_text(alloc: Global, format: &Format, shape: Shape) -> Result<Vec<u8>, AllocError>
    requires rows { IsSide shape.rows }
    requires cols { IsSide shape.cols }
{
    let ListPiece { phases, columns } = unpack(alloc, format, shape, &mut Fresh::new())?;
    let give = [columns.i, columns.j, columns.v];
    code_text(alloc, format.buffers(), phases, &give)
}

/// Whether the code gives these columns on the format's buffers of a matrix.
fn lists(alloc: Global, format: &Format, matrix: &Matrix, wanted: &Columns) -> bool {
    let Ok(text) = listing_text(alloc, format, matrix.shape()) else {
        return false;
    };
    let Ok(buffers) = build_plain(alloc, format, matrix) else {
        return false;
    };
    match lists_of(alloc, &text, &buffers) {
        Some(columns) => are_lists(&columns, wanted),
        None => false,
    }
}

/// Whether the code of a format gives these columns for a matrix.
fn is_listed(alloc: Global, format: &str, matrix: &str, wanted: &Columns) -> bool {
    match (format_in(alloc, format), matrix_in(alloc, matrix)) {
        (Some(format), Some(matrix)) => lists(alloc, &format, &matrix, wanted),
        _ => false,
    }
}

#[test]
fn entries_stand_part_by_part_and_by_position(rt: HostRuntime) {
    for Listing {
        format,
        sample,
        tied,
    } in LISTINGS {
        assert!(rt; is_listed(rt.alloc(), format, SAMPLE, &sample), "{format}");
        assert!(rt; is_listed(rt.alloc(), format, TIED, &tied), "{format}");
    }
}

#[test]
fn of_no_entries_the_columns_are_empty(rt: HostRuntime) {
    for Listing { format, .. } in LISTINGS {
        assert!(rt;
            is_listed(rt.alloc(), format, EMPTY, &[&[], &[], &[]]),
            "{format}"
        );
    }
}

//! Counts of the entries of small matrices.

ghost use Rattle.std.specs.Prelude.{[]};
ghost use Rattle.us_expr.specs.Tree.{tree};
ghost use Rattle.us_expr.specs.Value.{IsValid};

use std::alloc::{AllocError, Global};
use std::test::Fail;
use us_expr::{Axis, Expr};
use us_matrix::Matrix;
use us_mm::read_coordinate;
use us_query::{enumerate, enumerate_extent, reorder, sums};

/// Three entries, two of them in the first row, and none in the second row or the last column.
const SAMPLE: &str =
    "%%MatrixMarket matrix coordinate integer general\n3 4 3\n1 1 5\n1 3 2\n3 2 -7\n";

const EMPTY: &str = "%%MatrixMarket matrix coordinate integer general\n3 4 0\n";

/// The sums, the numbers and the greatest sum that an expression gives the entries.
fn counts(
    alloc: Global,
    matrix: &Matrix,
    e: &Expr,
) -> Result<Option<(Vec<u32>, Vec<u32>, u32)>, AllocError>
    requires { IsValid [] (tree e.now) }
{
    if matrix.entries().len() > 67108864 {
        return Ok(None);
    }
    let sums = sums(alloc, matrix, e)?;
    let numbers = enumerate(alloc, matrix, e)?;
    Ok(Some((sums, numbers, enumerate_extent(alloc, matrix, e)?)))
}

fn has_counts(
    alloc: Global,
    matrix: &Matrix,
    e: &Expr,
    sums: &[u32],
    numbers: &[u32],
    extent: u32,
) -> Result<bool, AllocError>
    requires { IsValid [] (tree e.now) }
{
    Ok(match counts(alloc, matrix, e)? {
        Some((s, n, x)) => s.as_slice() == sums && n.as_slice() == numbers && x == extent,
        None => false,
    })
}

/// Whether `reorder` gives the indices in this order.
fn has_order(
    alloc: Global,
    matrix: &Matrix,
    axis: Axis,
    order: &[u32],
) -> Result<bool, AllocError> {
    let shape = matrix.shape();
    if shape.rows > 67108864 || shape.cols > 67108864 {
        return Ok(false);
    }
    Ok(reorder(alloc, matrix, axis)?.as_slice() == order)
}

#[test]
fn counts_of_a_small_matrix(rt: HostRuntime) -> Result<(), Fail> {
    let alloc = rt.alloc();
    let matrix = read_coordinate(alloc, SAMPLE.as_bytes())?;
    assert!(rt; has_counts(alloc, &matrix, &Expr::I, &[2, 2, 1], &[0, 1, 0], 2)?);
    assert!(rt; has_counts(alloc, &matrix, &Expr::J, &[1, 1, 1], &[0, 0, 0], 1)?);
    assert!(rt; has_counts(alloc, &matrix, &Expr::Const(0), &[3, 3, 3], &[0, 1, 2], 3)?);
    assert!(rt; has_order(alloc, &matrix, Axis::Rows, &[0, 2, 1])?);
    assert!(rt; has_order(alloc, &matrix, Axis::Cols, &[0, 1, 2, 3])?);
    Ok(())
}

#[test]
fn counts_of_no_entries(rt: HostRuntime) -> Result<(), Fail> {
    let alloc = rt.alloc();
    let matrix = read_coordinate(alloc, EMPTY.as_bytes())?;
    assert!(rt; has_counts(alloc, &matrix, &Expr::I, &[], &[], 0)?);
    assert!(rt; has_order(alloc, &matrix, Axis::Rows, &[0, 1, 2])?);
    Ok(())
}

//! The numbers that `sum` and `enumerate` give to the entries of a matrix.
ghost use Rattle.std.specs.Prelude.{◌≡◌, ◌≤◌, [], IfOk, length, map};
ghost use Rattle.us_expr.specs.Tree.{tree};
ghost use Rattle.us_expr.specs.Value.{IsValid};
ghost use Rattle.us_format.specs.Lists.{greatest};
ghost use Rattle.us_format.specs.Program.{entries_in};
ghost use Rattle.us_format.specs.Queries.{enumerate_at, enumerate_extent, sum_at};

use crate::counting::{ranks, totals};
use crate::values::values;
use std::alloc::{AllocError, Global};
use us_expr::Expr;
use us_matrix::Matrix;

/// For each entry, in row-major order, how many entries have its value of the expression. Fails only where memory is
/// wanting.
pub fn sums(alloc: Global, matrix: &Matrix, e: &Expr) -> Result<Vec<u32>, AllocError>
    requires valid { IsValid [] (tree e.now) }
    requires few { length matrix.now.entries ≤ 67108864 }
    ensures { IfOk result (λ ns. ns.items ≡ map (sum_at (entries_in matrix.now) (tree e.now)) (entries_in matrix.now)) }
{
    let values = values(alloc, matrix, e)?;
    totals(alloc, &values)
}

/// For each entry, in row-major order, how many of the entries with its value of the expression come before it. Fails
/// only where memory is wanting.
pub fn enumerate(alloc: Global, matrix: &Matrix, e: &Expr) -> Result<Vec<u32>, AllocError>
    requires valid { IsValid [] (tree e.now) }
    requires few { length matrix.now.entries ≤ 67108864 }
    ensures { IfOk result (λ ns. ns.items ≡ map (enumerate_at (entries_in matrix.now) (tree e.now)) (entries_in matrix.now)) }
{
    let values = values(alloc, matrix, e)?;
    ranks(alloc, &values)
}

// The greatest of the numbers, 0 where there is none.
fn greatest(numbers: &[u32]) -> u32
    ensures { result ≡ greatest numbers.now }
{
    let mut most = 0;
    for n in numbers {
        most = most.max(*n);
    }
    most
}

/// The greatest number of entries with one value of the expression, 0 where there is no entry. Fails only where memory
/// is wanting.
pub fn enumerate_extent(alloc: Global, matrix: &Matrix, e: &Expr) -> Result<u32, AllocError>
    requires valid { IsValid [] (tree e.now) }
    requires few { length matrix.now.entries ≤ 67108864 }
    ensures { IfOk result (λ n. n ≡ enumerate_extent (entries_in matrix.now) (tree e.now)) }
{
    let sums = sums(alloc, matrix, e)?;
    Ok(greatest(&sums))
}

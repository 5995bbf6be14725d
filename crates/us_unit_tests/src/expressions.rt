//! Values and ranges of small expressions.

ghost use Rattle.std.specs.Prelude.{◌≡◌, ◌<◌, ◌^◌, [], IfOk};
ghost use Rattle.us_expr.specs.Tree.{tree, Number, RowIndex, ColIndex, Sum, Difference, Quotient, Remainder};
ghost use Rattle.us_expr.specs.Value.{IsValid};

use arrayvec::ArrayVec;
use sqlite_items::Boxed;
use std::alloc::{AllocError, Global};
use std::test::Fail;
use us_expr::{Expr, Point, Range, VarRanges, eval, range_of};

/// `j - i`.
fn diagonal(alloc: Global) -> Result<Expr, AllocError>
    ensures { IfOk result (λ e. tree e ≡ Difference ColIndex RowIndex) }
{
    Ok(Expr::Sub(Boxed::new(alloc, Expr::J)?, Boxed::new(alloc, Expr::I)?))
}

fn quotient(alloc: Global, e: Expr, k: u32) -> Result<Expr, AllocError>
    ensures { IfOk result (λ q. tree q ≡ Quotient (tree e) k) }
{
    Ok(Expr::Div(Boxed::new(alloc, e)?, k))
}

fn remainder(alloc: Global, e: Expr, k: u32) -> Result<Expr, AllocError>
    ensures { IfOk result (λ r. tree r ≡ Remainder (tree e) k) }
{
    Ok(Expr::Rem(Boxed::new(alloc, e)?, k))
}

/// Whether the value of `e` at row `i` and column `j` and its range in a matrix of 3 rows and 4 columns are these.
fn is_at(e: &Expr, i: u32, j: u32, value: i64, lo: i64, hi: i64) -> bool
    requires valid { IsValid [] (tree e.now) }
    requires row { i < 2 ^ 31 }
    requires col { j < 2 ^ 31 }
{
    let point = Point {
        i: i64::from(i),
        j: i64::from(j),
        vars: ArrayVec::new(),
    };
    let ranges = VarRanges {
        shape_rows: 3,
        shape_cols: 4,
        vars: ArrayVec::new(),
    };
    eval(e, &point) == value && range_of(e, &ranges) == Range { lo, hi }
}

#[test]
fn values_and_ranges(rt: HostRuntime) -> Result<(), Fail> {
    let alloc = rt.alloc();
    assert!(rt; is_at(&diagonal(alloc)?, 2, 1, -1, -2, 3));
    assert!(rt; is_at(&quotient(alloc, diagonal(alloc)?, 2)?, 2, 1, -1, -1, 1));
    assert!(rt; is_at(&remainder(alloc, diagonal(alloc)?, 4)?, 2, 1, 3, 0, 3));
    Ok(())
}

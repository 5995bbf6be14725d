//! The range of an expression.
ghost use Rattle.std.specs.Prelude.{◌≡◌, ◌<◌, ◌^◌, ◌+ℤ◌, ◌-ℤ◌, pos, FitsSigned};
ghost use Rattle.std.proofs.Common.{w64};
ghost use Rattle.std.specs.Int.{int_div_euclid};
ghost use Rattle.us_expr.specs.Tree.{tree};
ghost use Rattle.us_expr.specs.Range.{range, IsRangeable, range_of_remainder};

use crate::expression::Expr;
use arrayvec::ArrayVec;

/// The whole numbers from `lo` to `hi`; none where `hi` is `lo` less 1.
#[derive(Clone, Copy, Debug, Default, PartialEq, Eq)]
pub struct Range {
    /// The least number.
    pub lo: i64,
    /// The greatest number.
    pub hi: i64,
}

/// The shape of a matrix, and the range of each variable, by its number.
#[derive(Debug, Drop)]
pub struct VarRanges {
    /// The number of rows.
    pub shape_rows: u32,
    /// The number of columns.
    pub shape_cols: u32,
    /// The range of each variable.
    pub vars: ArrayVec<Range, 32>,
}

/// The range of a valid expression. It takes no memory.
pub fn range_of(e: &Expr, r: &VarRanges) -> Range
    requires valid { IsRangeable r.now.vars.items (tree e.now) }
    requires rows { r.now.shape_rows < 2 ^ 31 }
    requires cols { r.now.shape_cols < 2 ^ 31 }
    ensures { result ≡ range r.now.shape_rows r.now.shape_cols r.now.vars.items (tree e.now) }
{
    match e {
        Expr::I => index_range(r.shape_rows),
        Expr::J => index_range(r.shape_cols),
        Expr::Const(c) => Range {
            lo: i64::from(*c),
            hi: i64::from(*c),
        },
        Expr::Var(v) => r.vars[*v as usize],
        Expr::Add(a, b) => sum_range(range_of(a.get(), r), range_of(b.get(), r)),
        Expr::Sub(a, b) => difference_range(range_of(a.get(), r), range_of(b.get(), r)),
        Expr::Div(a, k) => quotient_range(range_of(a.get(), r), *k),
        Expr::Rem(a, k) => remainder_range(range_of(a.get(), r), *k),
    }
}

fn index_range(count: u32) -> Range
    ensures { result ≡ record { lo = pos 0; hi = pos count -ℤ pos 1 } }
{
    Range {
        lo: 0,
        hi: i64::from(count) - 1,
    }
}

fn sum_range(x: Range, y: Range) -> Range
    requires lo { FitsSigned w64 (x.lo +ℤ y.lo) }
    requires hi { FitsSigned w64 (x.hi +ℤ y.hi) }
    ensures { result ≡ record { lo = x.lo +ℤ y.lo; hi = x.hi +ℤ y.hi } }
{
    Range {
        lo: x.lo + y.lo,
        hi: x.hi + y.hi,
    }
}

fn difference_range(x: Range, y: Range) -> Range
    requires lo { FitsSigned w64 (x.lo -ℤ y.hi) }
    requires hi { FitsSigned w64 (x.hi -ℤ y.lo) }
    ensures { result ≡ record { lo = x.lo -ℤ y.hi; hi = x.hi -ℤ y.lo } }
{
    Range {
        lo: x.lo - y.hi,
        hi: x.hi - y.lo,
    }
}

fn quotient_range(x: Range, k: u32) -> Range
    requires { 0 < k }
    ensures { result ≡ record { lo = int_div_euclid x.lo (pos k); hi = int_div_euclid x.hi (pos k) } }
{
    let k = i64::from(k);
    Range {
        lo: x.lo.div_euclid(k),
        hi: x.hi.div_euclid(k),
    }
}

fn remainder_range(x: Range, k: u32) -> Range
    requires { 0 < k }
    ensures { result ≡ range_of_remainder x k }
{
    let k = i64::from(k);
    if x.lo.div_euclid(k) == x.hi.div_euclid(k) {
        Range {
            lo: x.lo.rem_euclid(k),
            hi: x.hi.rem_euclid(k),
        }
    } else {
        Range { lo: 0, hi: k - 1 }
    }
}

//! The value of an expression at a point.
ghost use Rattle.std.specs.Prelude.{◌≡◌};
ghost use Rattle.us_expr.specs.Tree.{tree};
ghost use Rattle.us_expr.specs.Value.{value, IsPoint, IsValid};

use crate::expression::Expr;
use arrayvec::ArrayVec;

/// The indices of an entry, and the values there of the variables, by their numbers.
#[derive(Debug, Drop)]
pub struct Point {
    /// The row.
    pub i: i64,
    /// The column.
    pub j: i64,
    /// The value of each variable.
    pub vars: ArrayVec<i64, 32>,
}

/// The value of a valid expression at a point. It takes no memory.
pub fn eval(e: &Expr, p: &Point) -> i64
    requires valid { IsValid p.now.vars.items (tree e.now) }
    requires point { IsPoint p.now.i p.now.j p.now.vars.items }
    ensures { result ≡ value p.now.i p.now.j p.now.vars.items (tree e.now) }
{
    match e {
        Expr::I => p.i,
        Expr::J => p.j,
        Expr::Const(c) => i64::from(*c),
        Expr::Var(v) => p.vars[*v as usize],
        Expr::Add(a, b) => eval(a.get(), p) + eval(b.get(), p),
        Expr::Sub(a, b) => eval(a.get(), p) - eval(b.get(), p),
        Expr::Div(a, k) => eval(a.get(), p).div_euclid(i64::from(*k)),
        Expr::Rem(a, k) => eval(a.get(), p).rem_euclid(i64::from(*k)),
    }
}

//! Formats whose entries stand in one order.

ghost use Rattle.std.specs.Prelude.{◌≡◌, map};
ghost use Rattle.us_expr.specs.Tree.{tree};
ghost use Rattle.us_format.specs.Known.{same_tree};
ghost use Rattle.us_judge.specs.Views.{declaration_of, plain_part};
ghost use Rattle.us_convert.specs.Alike as whole;

use us_decl::Part;
use us_expr::Expr;
use us_judge::Format;

/// Whether two expressions are the same.
fn is_same(a: &Expr, b: &Expr) -> bool
    ensures { result ≡ same_tree (tree a.now) (tree b.now) }
{
    match a {
        Expr::I => matches!(b, Expr::I),
        Expr::J => matches!(b, Expr::J),
        Expr::Const(c) => match b {
            Expr::Const(d) => *c == *d,
            _ => false,
        },
        Expr::Var(v) => match b {
            Expr::Var(w) => *v == *w,
            _ => false,
        },
        Expr::Add(x, y) => match b {
            Expr::Add(z, w) => is_same(x.get(), z.get()) && is_same(y.get(), w.get()),
            _ => false,
        },
        Expr::Sub(x, y) => match b {
            Expr::Sub(z, w) => is_same(x.get(), z.get()) && is_same(y.get(), w.get()),
            _ => false,
        },
        Expr::Div(x, k) => match b {
            Expr::Div(z, l) => is_same(x.get(), z.get()) && *k == *l,
            _ => false,
        },
        Expr::Rem(x, k) => match b {
            Expr::Rem(z, l) => is_same(x.get(), z.get()) && *k == *l,
            _ => false,
        },
    }
}

/// Whether two lists of expressions are the same.
fn are_same(a: &[Expr], b: &[Expr]) -> bool
    ensures { result ≡ whole.same_trees (map tree a.now) (map tree b.now) }
{
    match a {
        [] => b.is_empty(),
        [x, xs @ ..] => match b {
            [] => false,
            [y, ys @ ..] => is_same(x, y) && are_same(xs, ys),
        },
    }
}

/// Whether two parts have no queries and the same levels.
fn are_alike(from: &Part, to: &Part) -> bool
    ensures { result ≡ whole.alike_parts (plain_part from.now) (plain_part to.now) }
{
    from.queries.as_slice().is_empty()
        && to.queries.as_slice().is_empty()
        && are_same(from.levels.as_slice(), to.levels.as_slice())
}

/// Whether both formats have one part, without queries, and the same levels.
pub(crate) fn is_alike(from: &Format, to: &Format) -> bool
    ensures { result ≡ whole.alike (declaration_of from.now) (declaration_of to.now) }
{
    from.parts() == 1 && to.parts() == 1 && are_alike(from.first_part(), to.first_part())
}

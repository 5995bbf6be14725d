//! Expressions as terms.

ghost use Rattle.std.specs.Prelude.{◌≡◌, ◌+◌, ◌<◌, ◌^◌, IfOk};
ghost use Rattle.us_code.specs.Plain.{term_tree};
ghost use Rattle.us_expr.specs.Tree.{tree};
ghost use Rattle.us_expr.specs.Value.{IsWithin};
ghost use Rattle.us_gen_query.specs.Terms as expression;

use std::alloc::{AllocError, Global};
use us_code::{Term, add, div, rem, sub};
use us_expr::Expr;

/// Whether an expression reads a column of the entries: their rows are column 0, their columns 1, and the variable v
/// is v + 2.
pub fn reads(e: &Expr, column: usize) -> bool
    ensures { result ≡ expression.reads (tree e.now) column }
{
    match e {
        Expr::I => column == 0,
        Expr::J => column == 1,
        Expr::Const(_) => false,
        Expr::Var(v) => column == *v as usize + 2,
        Expr::Add(a, b) => reads(a.get(), column) || reads(b.get(), column),
        Expr::Sub(a, b) => reads(a.get(), column) || reads(b.get(), column),
        Expr::Div(a, _) => reads(a.get(), column),
        Expr::Rem(a, _) => reads(a.get(), column),
    }
}

/// The term of an expression, where the register `first + c` holds the entry's value in column c. It fails only for
/// want of memory.
pub fn term_of(alloc: Global, e: &Expr, first: u32) -> Result<Term, AllocError>
    requires within { IsWithin 32 (tree e.now) }
    requires room { first + 34 < 2 ^ 32 }
    ensures { IfOk result (λ t. term_tree t ≡ expression.term_of (tree e.now) first) }
{
    match e {
        Expr::I => Ok(Term::Reg(first)),
        Expr::J => Ok(Term::Reg(first + 1)),
        Expr::Const(c) => Ok(Term::Number(*c as u64)),
        Expr::Var(v) => Ok(Term::Reg(first + (*v + 2))),
        Expr::Add(a, b) => {
            let left = term_of(alloc, a.get(), first)?;
            let right = term_of(alloc, b.get(), first)?;
            add(alloc, left, right)
        }
        Expr::Sub(a, b) => {
            let left = term_of(alloc, a.get(), first)?;
            let right = term_of(alloc, b.get(), first)?;
            sub(alloc, left, right)
        }
        Expr::Div(a, k) => div(alloc, term_of(alloc, a.get(), first)?, *k as u64),
        Expr::Rem(a, k) => rem(alloc, term_of(alloc, a.get(), first)?, *k as u64),
    }
}

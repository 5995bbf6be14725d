//! The expression type.
ghost use Rattle.std.specs.Prelude.{◌≡◌, IfOk};

use sqlite_items::Boxed;
use std::alloc::{AllocError, Global};

/// An expression over the indices of an entry and the variables of a part.
///
/// A valid expression has at most 32 nodes, constants below 2^31 and divisors from 1 to 2^31 - 1.
#[derive(Debug, Drop)]
pub enum Expr {
    /// The row of the entry.
    I,
    /// The column of the entry.
    J,
    /// A constant.
    Const(u32),
    /// The variable with this number among the names of the part.
    Var(u32),
    /// The sum of the operands.
    Add(Boxed<Expr>, Boxed<Expr>),
    /// The first operand less the second.
    Sub(Boxed<Expr>, Boxed<Expr>),
    /// The floor quotient of the operand by the number.
    Div(Boxed<Expr>, u32),
    /// The remainder of the operand by the number, from 0 to that number less 1.
    Rem(Boxed<Expr>, u32),
}

impl Expr {
    /// An equal expression.
    pub fn copy(&self, alloc: Global) -> Result<Expr, AllocError>
        ensures { IfOk result (λ e. e ≡ self.now) }
    {
        match self {
            Expr::I => Ok(Expr::I),
            Expr::J => Ok(Expr::J),
            Expr::Const(c) => Ok(Expr::Const(*c)),
            Expr::Var(v) => Ok(Expr::Var(*v)),
            Expr::Add(a, b) => {
                let a = Boxed::new(alloc, a.get().copy(alloc)?)?;
                let b = Boxed::new(alloc, b.get().copy(alloc)?)?;
                Ok(Expr::Add(a, b))
            }
            Expr::Sub(a, b) => {
                let a = Boxed::new(alloc, a.get().copy(alloc)?)?;
                let b = Boxed::new(alloc, b.get().copy(alloc)?)?;
                Ok(Expr::Sub(a, b))
            }
            Expr::Div(a, k) => Ok(Expr::Div(Boxed::new(alloc, a.get().copy(alloc)?)?, *k)),
            Expr::Rem(a, k) => Ok(Expr::Rem(Boxed::new(alloc, a.get().copy(alloc)?)?, *k)),
        }
    }
}

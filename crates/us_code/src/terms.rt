//! Terms, made from their operands.

ghost use Rattle.std.specs.Prelude.{◌≡◌, IfOk};
ghost use Rattle.us_code.specs.Plain.{term_tree};
ghost use Rattle.us_code.specs.Plain as plain;

use crate::program::Term;
use std::alloc::{AllocError, Global};

/// The sum.
pub fn add(alloc: Global, left: Term, right: Term) -> Result<Term, AllocError>
    ensures { IfOk result (λ t. term_tree t ≡ plain.Add (term_tree left) (term_tree right)) }
{
    let left = Box::new(alloc, left)?;
    let right = Box::new(alloc, right)?;
    Ok(Term::Add(left, right))
}

/// The first term less the second.
pub fn sub(alloc: Global, left: Term, right: Term) -> Result<Term, AllocError>
    ensures { IfOk result (λ t. term_tree t ≡ plain.Sub (term_tree left) (term_tree right)) }
{
    let left = Box::new(alloc, left)?;
    let right = Box::new(alloc, right)?;
    Ok(Term::Sub(left, right))
}

/// The product.
pub fn mul(alloc: Global, left: Term, right: Term) -> Result<Term, AllocError>
    ensures { IfOk result (λ t. term_tree t ≡ plain.Mul (term_tree left) (term_tree right)) }
{
    let left = Box::new(alloc, left)?;
    let right = Box::new(alloc, right)?;
    Ok(Term::Mul(left, right))
}

/// The floor quotient by `divisor`, which is not 0.
pub fn div(alloc: Global, term: Term, divisor: u64) -> Result<Term, AllocError>
    ensures { IfOk result (λ t. term_tree t ≡ plain.Div (term_tree term) divisor) }
{
    Ok(Term::Div(Box::new(alloc, term)?, divisor))
}

/// The floor remainder by `divisor`, which is not 0.
pub fn rem(alloc: Global, term: Term, divisor: u64) -> Result<Term, AllocError>
    ensures { IfOk result (λ t. term_tree t ≡ plain.Rem (term_tree term) divisor) }
{
    Ok(Term::Rem(Box::new(alloc, term)?, divisor))
}

/// The place in the product dim of `place` in its left factor and `digit` in its right one.
pub fn flat(alloc: Global, dim: u32, place: Term, digit: Term) -> Result<Term, AllocError>
    ensures { IfOk result (λ t. term_tree t ≡ plain.Flat dim (term_tree place) (term_tree digit)) }
{
    let place = Box::new(alloc, place)?;
    let digit = Box::new(alloc, digit)?;
    Ok(Term::Flat(dim, place, digit))
}

/// One more than the term, below the successor dim.
pub fn next(alloc: Global, dim: u32, term: Term) -> Result<Term, AllocError>
    ensures { IfOk result (λ t. term_tree t ≡ plain.Next dim (term_tree term)) }
{
    Ok(Term::Next(dim, Box::new(alloc, term)?))
}

/// The term itself, below the successor dim.
pub fn up(alloc: Global, dim: u32, term: Term) -> Result<Term, AllocError>
    ensures { IfOk result (λ t. term_tree t ≡ plain.Up dim (term_tree term)) }
{
    Ok(Term::Up(dim, Box::new(alloc, term)?))
}

//! Terms.

ghost use Rattle.std.specs.Prelude.{◌≡◌, ◌++◌, OnOk, codes};
ghost use Rattle.us_code.specs.Plain.{term_tree};
ghost use Rattle.us_code_print.specs.Canon.{call_text, dim_text, is_sum, is_operation, parenthesized, term_text};

use crate::words::{push_dim, push_name, push_number};
use std::alloc::AllocError;
use us_code::{Dim, Term};

#[cycle(term)]
pub fn push_term(out: &mut Vec<u8>, term: &Term) -> Result<(), AllocError>
    ensures { OnOk result (out.new.items ≡ out.old.items ++ term_text (term_tree term.now)) }
{
    match term {
        Term::Number(n) => push_number(out, *n),
        Term::Reg(reg) => push_name(out, b"r", *reg),
        Term::Size(dim) => push_size(out, *dim),
        Term::Flat(dim, place, digit) => {
            push_call(out, b"flat ", *dim)?;
            push_term(out, place)?;
            out.extend_from_slice(b", ")?;
            push_last(out, digit)
        }
        Term::Next(dim, value) => {
            push_call(out, b"next ", *dim)?;
            push_last(out, value)
        }
        Term::Up(dim, value) => {
            push_call(out, b"up ", *dim)?;
            push_last(out, value)
        }
        Term::Add(left, right) => {
            push_term(out, left)?;
            out.extend_from_slice(b" + ")?;
            push_product(out, right)
        }
        Term::Sub(left, right) => {
            push_term(out, left)?;
            out.extend_from_slice(b" - ")?;
            push_product(out, right)
        }
        Term::Mul(left, right) => {
            push_product(out, left)?;
            out.extend_from_slice(b" * ")?;
            push_atom(out, right)
        }
        Term::Div(left, divisor) => {
            push_product(out, left)?;
            out.extend_from_slice(b" / ")?;
            push_number(out, *divisor)
        }
        Term::Rem(left, divisor) => {
            push_product(out, left)?;
            out.extend_from_slice(b" % ")?;
            push_number(out, *divisor)
        }
    }
}

/// In parentheses where it is a sum or a difference.
#[cycle(term)]
fn push_product(out: &mut Vec<u8>, term: &Term) -> Result<(), AllocError>
    ensures { OnOk result (out.new.items ≡ out.old.items ++ parenthesized (is_sum (term_tree term.now)) (term_text (term_tree term.now))) }
{
    if matches!(term, Term::Add(_, _) | Term::Sub(_, _)) {
        out.extend_from_slice(b"(")?;
        push_last(out, term)
    } else {
        push_term(out, term)
    }
}

/// In parentheses where it is an operation.
#[cycle(term)]
fn push_atom(out: &mut Vec<u8>, term: &Term) -> Result<(), AllocError>
    ensures { OnOk result (out.new.items ≡ out.old.items ++ parenthesized (is_operation (term_tree term.now)) (term_text (term_tree term.now))) }
{
    if matches!(
        term,
        Term::Add(_, _) | Term::Sub(_, _) | Term::Mul(_, _) | Term::Div(_, _) | Term::Rem(_, _)
    ) {
        out.extend_from_slice(b"(")?;
        push_last(out, term)
    } else {
        push_term(out, term)
    }
}

/// The last term in parentheses, and their end.
#[cycle(term)]
fn push_last(out: &mut Vec<u8>, term: &Term) -> Result<(), AllocError>
    ensures { OnOk result (out.new.items ≡ out.old.items ++ (term_text (term_tree term.now) ++ codes ")")) }
{
    push_term(out, term)?;
    out.extend_from_slice(b")")
}

fn push_size(out: &mut Vec<u8>, dim: Dim) -> Result<(), AllocError>
    ensures { OnOk result (out.new.items ≡ out.old.items ++ (codes "size(" ++ (dim_text dim ++ codes ")"))) }
{
    out.extend_from_slice(b"size(")?;
    push_dim(out, dim)?;
    out.extend_from_slice(b")")
}

/// A word and a dim, and the parenthesis behind it.
fn push_call(out: &mut Vec<u8>, word: &[u8], dim: u32) -> Result<(), AllocError>
    ensures { OnOk result (out.new.items ≡ out.old.items ++ call_text word.now dim) }
{
    out.extend_from_slice(word)?;
    push_name(out, b"d", dim)?;
    out.extend_from_slice(b"(")
}

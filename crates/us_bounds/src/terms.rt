//! The rules of terms.

ghost use Rattle.std.specs.Prelude.{◌≡◌, ◌+◌, ◌^◌, nat_lt, cond};
ghost use Rattle.us_code.specs.Plain.{term_tree};
ghost use Rattle.us_code.specs.Typing.{kind_of};
ghost use Rattle.us_code.specs.declared.program.CellKind.TheVariants as kind;
ghost use Rattle.us_code.specs.declared.program.Dim.TheVariants as dim;
ghost use Rattle.us_code.specs.Unbound.{sees_term, keeps_flats, keeps_nexts};
ghost use Rattle.us_bounds.specs.Seen.{context_of};

use crate::kinds::{is_flat, is_next, kind_of_reg, sees_dim, sees_name, sees_reg};
use crate::table::Table;
use us_code::{CellKind, Dim, Term};

/// The kind of a term.
pub fn kind_of(table: &Table, term: &Term) -> CellKind
    ensures { result ≡ kind_of (context_of table.now) (term_tree term.now) }
{
    match term {
        Term::Number(n) => kind_of_number(*n),
        Term::Reg(r) => kind_of_reg(table, *r),
        Term::Flat(d, _, _) => CellKind::Below(Dim::Name(*d)),
        Term::Next(d, _) => CellKind::Below(Dim::Name(*d)),
        Term::Up(d, _) => CellKind::Below(Dim::Name(*d)),
        Term::Size(_) => CellKind::Word,
        Term::Add(_, _) => CellKind::Word,
        Term::Sub(_, _) => CellKind::Word,
        Term::Mul(_, _) => CellKind::Word,
        Term::Div(_, _) => CellKind::Word,
        Term::Rem(_, _) => CellKind::Word,
    }
}

/// A number is below the next one, where that can be said.
fn kind_of_number(n: u64) -> CellKind
    ensures { result ≡ cond (nat_lt (n + 1) (2 ^ 63)) (kind.Below (dim.Number (n + 1))) kind.Word }
{
    if n < 9223372036854775807 {
        CellKind::Below(Dim::Number(n + 1))
    } else {
        CellKind::Word
    }
}

/// Whether the names of a term are visible.
pub fn sees_term(table: &Table, term: &Term) -> bool
    ensures { result ≡ sees_term (context_of table.now) (term_tree term.now) }
{
    match term {
        Term::Number(_) => true,
        Term::Reg(r) => sees_reg(table, *r),
        Term::Size(d) => sees_dim(table, *d),
        Term::Flat(d, p, c) => sees_name(table, *d) && (sees_term(table, p) && sees_term(table, c)),
        Term::Next(d, x) => sees_name(table, *d) && sees_term(table, x),
        Term::Up(d, x) => sees_name(table, *d) && sees_term(table, x),
        Term::Add(a, b) => sees_term(table, a) && sees_term(table, b),
        Term::Sub(a, b) => sees_term(table, a) && sees_term(table, b),
        Term::Mul(a, b) => sees_term(table, a) && sees_term(table, b),
        Term::Div(a, _) => sees_term(table, a),
        Term::Rem(a, _) => sees_term(table, a),
    }
}

/// Whether each `flat` has its product.
pub fn keeps_flats(table: &Table, term: &Term) -> bool
    ensures { result ≡ keeps_flats (context_of table.now) (term_tree term.now) }
{
    match term {
        Term::Number(_) => true,
        Term::Reg(_) => true,
        Term::Size(_) => true,
        Term::Flat(d, p, c) => {
            is_flat(table.form(*d), kind_of(table, p), kind_of(table, c))
                && (keeps_flats(table, p) && keeps_flats(table, c))
        }
        Term::Next(_, x) => keeps_flats(table, x),
        Term::Up(_, x) => keeps_flats(table, x),
        Term::Add(a, b) => keeps_flats(table, a) && keeps_flats(table, b),
        Term::Sub(a, b) => keeps_flats(table, a) && keeps_flats(table, b),
        Term::Mul(a, b) => keeps_flats(table, a) && keeps_flats(table, b),
        Term::Div(a, _) => keeps_flats(table, a),
        Term::Rem(a, _) => keeps_flats(table, a),
    }
}

/// Whether each `next` and `up` has its successor.
pub fn keeps_nexts(table: &Table, term: &Term) -> bool
    ensures { result ≡ keeps_nexts (context_of table.now) (term_tree term.now) }
{
    match term {
        Term::Number(_) => true,
        Term::Reg(_) => true,
        Term::Size(_) => true,
        Term::Flat(_, p, c) => keeps_nexts(table, p) && keeps_nexts(table, c),
        Term::Next(d, x) => is_next(table.form(*d), kind_of(table, x)) && keeps_nexts(table, x),
        Term::Up(d, x) => is_next(table.form(*d), kind_of(table, x)) && keeps_nexts(table, x),
        Term::Add(a, b) => keeps_nexts(table, a) && keeps_nexts(table, b),
        Term::Sub(a, b) => keeps_nexts(table, a) && keeps_nexts(table, b),
        Term::Mul(a, b) => keeps_nexts(table, a) && keeps_nexts(table, b),
        Term::Div(a, _) => keeps_nexts(table, a),
        Term::Rem(a, _) => keeps_nexts(table, a),
    }
}

//! The value of a term.
ghost use Rattle.std.specs.Prelude.{◌≡◌};
ghost use Rattle.us_code.specs.Plain.{term_tree};
ghost use Rattle.us_code.specs.Run.{value};
ghost use Rattle.us_machine.specs.Tables.{env_of, regs_of, IsEvaluable};

use crate::names::Registers;
use crate::tables::Tables;
use us_code::Term;
use us_matrix::Buffers;

/// The value of a term. A number and a register are read in place.
#[cycle(terms)]
#[inline(always)]
pub fn eval(term: &Term, tables: &Tables, source: &Buffers, regs: &Registers) -> i64
    requires { IsEvaluable tables.now source.now (regs_of regs.now) (term_tree term.now) }
    ensures { result ≡ value (env_of tables.now source.now) (regs_of regs.now) (term_tree term.now) }
{
    match term {
        Term::Number(n) => *n as i64,
        Term::Reg(r) => regs.get(*r),
        _ => compute(term, tables, source, regs),
    }
}

/// The value of a term, from those of its parts.
#[cycle(terms)]
fn compute(term: &Term, tables: &Tables, source: &Buffers, regs: &Registers) -> i64
    requires { IsEvaluable tables.now source.now (regs_of regs.now) (term_tree term.now) }
    ensures { result ≡ value (env_of tables.now source.now) (regs_of regs.now) (term_tree term.now) }
{
    match term {
        Term::Number(n) => *n as i64,
        Term::Reg(r) => regs.get(*r),
        Term::Size(d) => tables.size(*d, source) as i64,
        Term::Flat(d, place, digit) => {
            let factor = tables.factors.get(*d) as i64;
            let left = eval(place, tables, source, regs).wrapping_mul(factor);
            left.wrapping_add(eval(digit, tables, source, regs))
        }
        Term::Next(_, x) => eval(x, tables, source, regs).wrapping_add(1),
        Term::Up(_, x) => eval(x, tables, source, regs),
        Term::Add(a, b) => {
            let left = eval(a, tables, source, regs);
            left.wrapping_add(eval(b, tables, source, regs))
        }
        Term::Sub(a, b) => {
            let left = eval(a, tables, source, regs);
            left.wrapping_sub(eval(b, tables, source, regs))
        }
        Term::Mul(a, b) => {
            let left = eval(a, tables, source, regs);
            left.wrapping_mul(eval(b, tables, source, regs))
        }
        Term::Div(a, k) => eval(a, tables, source, regs).div_euclid(*k as i64),
        Term::Rem(a, k) => eval(a, tables, source, regs).rem_euclid(*k as i64),
    }
}

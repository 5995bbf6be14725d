//! The phases that select the entries of a part of a split.

ghost use Rattle.std.specs.Prelude.{◌≡◌, ◌+◌, ◌*◌, ◌<◌, ◌≤◌, ◌^◌, ◌++◌, All, IfOk, OnOk, length, map};
ghost use Rattle.us_code.specs.Plain.{phase_tree};
ghost use Rattle.us_expr.specs.Value.{IsWithin};
ghost use Rattle.us_format.specs.Declaration.{argument, query_of};
ghost use Rattle.us_format.specs.Program.{plain_shape};
ghost use Rattle.us_gen_counting.specs.Phases.{column_of};
ghost use Rattle.us_gen_counting.specs.Selected as selected;

use crate::counting::{column_of, count_phases};
use crate::queries::words;
use arrayvec::ArrayVec;
use sqlite_items::Items;
use std::alloc::{AllocError, Global};
use us_code::{Columns, DimLine, ListPiece, Phase, Phases, Term};
use us_expr::{Cond, Query};
use us_gen_query::{Test, copy_chosen, count_chosen};
use us_matrix::Shape;

/// The test of a condition, or of its contrary, over the column of its variable.
fn test_of(columns: &Columns, head: &[Query], cond: Cond, less: bool, next: u32) -> Test
    requires { next + 64 * (length head.now + 1) < 2 ^ 32 }
    ensures { result ≡ selected.test_of (λ v. column_of (map query_of head.now) v next columns.now.i) cond less }
{
    Test {
        buf: column_of(head, cond.var, next, columns.i),
        less,
        bound: cond.bound as u64,
    }
}

/// The tests of a part, counted from 0, behind others: no condition before its own holds, and its own does.
fn push_tests(
    columns: &Columns,
    head: &[Query],
    conds: &[Cond],
    part: usize,
    next: u32,
    tests: &mut Vec<Test>,
) -> Result<(), AllocError>
    requires { next + 64 * (length head.now + 1) < 2 ^ 32 }
    ensures { OnOk result (tests.new.items ≡ tests.old.items ++ selected.tests columns.now (map query_of head.now) conds.now part next) }
{
    match conds {
        [] => Ok(()),
        [cond, rest @ ..] => {
            if part == 0 {
                tests.push(test_of(columns, head, *cond, cond.less, next))?;
                Ok(())
            } else {
                tests.push(test_of(columns, head, *cond, !cond.less, next))?;
                push_tests(columns, head, rest, part - 1, next, tests)
            }
        }
    }
}

/// The phase that counts the entries that pass into dim `next`.
fn count_phase(
    alloc: Global,
    columns: &Columns,
    tests: &[Test],
    next: u32,
) -> Result<Phase, AllocError>
    requires { next + length tests.now + 32 < 2 ^ 32 }
    ensures { IfOk result (λ p. phase_tree p ≡ selected.count_phase columns.now tests.now next) }
{
    let body = count_chosen(alloc, columns, tests, next + 8)?;
    let mut dims = Items::new(alloc);
    dims.push(DimLine::Of {
        dim: next,
        value: Term::Reg(next + 8),
    })?;
    Ok(Phase {
        makes: Items::new(alloc),
        body,
        dims,
    })
}

/// The phase that puts the entries that pass into new columns.
fn copy_phase(
    alloc: Global,
    columns: &Columns,
    tests: &[Test],
    to: &Columns,
    next: u32,
) -> Result<Phase, AllocError>
    requires { next + length tests.now + 32 < 2 ^ 32 }
    ensures { IfOk result (λ p. phase_tree p ≡ selected.copy_phase columns.now tests.now to.now next) }
{
    let mut makes = Items::new(alloc);
    makes.push(words(to.i, to))?;
    makes.push(words(to.j, to))?;
    makes.push(words(to.v, to))?;
    let body = copy_chosen(alloc, columns, tests, to, next + 8)?;
    Ok(Phase {
        makes,
        body,
        dims: Items::new(alloc),
    })
}

/// The new columns, whose dim is `next`.
fn selected(next: u32) -> Columns
    requires { next + 3 < 2 ^ 32 }
    ensures { selected.IsSelected result next }
{
    Columns {
        count: next,
        i: next + 1,
        j: next + 2,
        v: next + 3,
        vars: ArrayVec::new(),
    }
}

/// Both phases, behind others.
fn push_both(
    alloc: Global,
    columns: &Columns,
    tests: &[Test],
    to: &Columns,
    next: u32,
    phases: &mut Phases,
) -> Result<(), AllocError>
    requires { next + length tests.now + 32 < 2 ^ 32 }
    ensures { OnOk result (map phase_tree phases.new ≡ map phase_tree phases.old ++ selected.both columns.now tests.now to.now next) }
{
    phases.push(count_phase(alloc, columns, tests, next)?)?;
    phases.push(copy_phase(alloc, columns, tests, to, next)?)?;
    Ok(())
}

/// The phases that select the entries of a part, counted from 0, of a split over the conditions, whose variables the head
/// defines: those of the head's queries, one that counts the entries of the part, and one that copies them, in their
/// order. They name registers, buffers and dims from `next` on. It fails only for want of memory.
pub fn select_list(
    alloc: Global,
    shape: Shape,
    columns: &Columns,
    head: &[Query],
    conds: &[Cond],
    part: usize,
    next: u32,
) -> Result<ListPiece, AllocError>
    requires within { All (λ q. IsWithin 32 (argument (query_of q))) head.now }
    requires room { next + 64 * (length head.now + 1) + length conds.now < 2 ^ 32 }
    ensures phases { IfOk result (λ p. map phase_tree p.phases
        ≡ selected.select_phases (plain_shape shape) columns.now (map query_of head.now) conds.now part p.columns next) }
    ensures columns { IfOk result (λ p. selected.IsSelected p.columns (selected.base (map query_of head.now) next)) }
{
    let mut tests = Vec::new(alloc);
    push_tests(columns, head, conds, part, next, &mut tests)?;
    let base = next + 64 * head.len() as u32;
    let to = selected(base);
    let mut phases = count_phases(alloc, shape, columns, head, next)?;
    push_both(alloc, columns, &tests, &to, base, &mut phases)?;
    Ok(ListPiece {
        phases,
        columns: to,
    })
}

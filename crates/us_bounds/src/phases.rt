//! The checks of `new` lines, dim lines and phases.

ghost use Rattle.std.specs.Prelude.{◌≡◌, ◌+◌, ◌≤◌, [], ◌∷◌, None, length, map, OnOk};
ghost use Rattle.us_code.specs.Plain.{term_tree, tree_of, line_tree, phase_tree};
ghost use Rattle.us_code.specs.Plain as plain;
ghost use Rattle.us_code.specs.Names.{count};
ghost use Rattle.us_code.specs.Typing.{with_buf, with_bufs, with_form, with_line, with_lines, after_phase};
ghost use Rattle.us_code.specs.Unbound.{broken_makes, broken_lines, broken_phase};
ghost use Rattle.us_bounds.specs.Seen.{context_of, plain_form};
ghost use Rattle.us_bounds.specs.Steps.{IsStep, Leads, ChecksLine};

use crate::blocks::check_block;
use crate::kinds::cell_has_room;
use crate::names::{may_define, may_make, may_multiply, may_succeed};
use crate::rules::{judge, judge_term};
use crate::stop::{Rule, Stop};
use crate::table::{DimForm, Table};
use us_code::{Dim, DimLine, Make, Phase, Term};

/// `new buf[len] cell`.
fn check_make(table: &mut Table, item: u32, make: Make) -> Result<u32, Stop>
    requires { item + 1 ≤ 65536 }
    ensures { Leads (broken_makes (context_of table.old) item (make ∷ [])) (item + 1) (with_buf (context_of table.old) make) (context_of table.new) result }
{
    let names = may_make(table, make);
    let room = cell_has_room(table, make);
    judge(item, &[Rule(1, names), Rule(8, room)])?;
    table.add_buf(make)?;
    Ok(item + 1)
}

/// Checks the `new` lines of a phase, its first items; gives how many there are.
fn check_makes(table: &mut Table, makes: &[Make]) -> Result<u32, Stop>
    requires { length makes.now ≤ 65536 }
    ensures { let g = context_of table.old in
        Leads (broken_makes g 0 makes.now) (length makes.now) (with_bufs g makes.now) (context_of table.new) result }
{
    let mut next: u32 = 0;
    for make in makes {
        next = check_make(table, next, *make)?;
    }
    Ok(next)
}

/// Makes a dim visible behind an item.
fn define(table: &mut Table, item: u32, dim: u32, form: DimForm) -> Result<u32, Stop>
    requires { item + 1 ≤ 65536 }
    ensures { Leads None (item + 1) (with_form (context_of table.old) dim (plain_form form)) (context_of table.new) result }
{
    table.add_dim(dim, form)?;
    Ok(item + 1)
}

/// `dim dim of value`.
fn check_of(table: &mut Table, item: u32, dim: u32, value: &Term) -> Result<u32, Stop>
    requires { item + 1 ≤ 65536 }
    ensures { ChecksLine (context_of table.old) item (plain.Of dim (term_tree value.now)) (context_of table.new) result }
{
    let names = may_define(table, dim, value);
    judge_term(table, item, names, value)?;
    define(table, item, dim, DimForm::Of)
}

/// `dim dim = left * right`.
fn check_product(table: &mut Table, item: u32, dim: u32, left: Dim, right: Dim) -> Result<u32, Stop>
    requires { item + 1 ≤ 65536 }
    ensures { ChecksLine (context_of table.old) item (plain.Product dim left right) (context_of table.new) result }
{
    let names = may_multiply(table, dim, left, right);
    judge(item, &[Rule(1, names)])?;
    define(table, item, dim, DimForm::Product(left, right))
}

/// `dim dim = of + 1`.
fn check_successor(table: &mut Table, item: u32, dim: u32, of: Dim) -> Result<u32, Stop>
    requires { item + 1 ≤ 65536 }
    ensures { ChecksLine (context_of table.old) item (plain.Successor dim of) (context_of table.new) result }
{
    let names = may_succeed(table, dim, of);
    judge(item, &[Rule(1, names)])?;
    define(table, item, dim, DimForm::Successor(of))
}

/// Checks a dim line.
fn check_line(table: &mut Table, item: u32, line: &DimLine) -> Result<u32, Stop>
    requires { item + 1 ≤ 65536 }
    ensures { ChecksLine (context_of table.old) item (line_tree line.now) (context_of table.new) result }
{
    match line {
        DimLine::Of { dim, value } => check_of(table, item, *dim, value),
        DimLine::Product { dim, left, right } => check_product(table, item, *dim, *left, *right),
        DimLine::Next { dim, of } => check_successor(table, item, *dim, *of),
    }
}

/// Checks the dim lines of a phase, numbered from `item` on; gives the number behind them.
fn check_lines(table: &mut Table, item: u32, lines: &[DimLine]) -> Result<u32, Stop>
    requires { item + length lines.now ≤ 65536 }
    ensures { let g = context_of table.old in
        let ls = map line_tree lines.now in
        Leads (broken_lines g item ls) (item + length lines.now) (with_lines g ls) (context_of table.new) result }
{
    let mut next = item;
    for line in lines {
        next = check_line(table, next, line)?;
    }
    Ok(next)
}

/// Checks a phase, behind which no register is visible.
pub fn check_phase(table: &mut Table, phase: &Phase) -> Result<(), Stop>
    requires { length phase.now.makes + count (tree_of phase.now.body) + length phase.now.dims ≤ 65536 }
    ensures step { IsStep result (broken_phase (context_of table.old) (phase_tree phase.now)) }
    ensures seen { OnOk result (context_of table.new ≡ after_phase (context_of table.old) (phase_tree phase.now)) }
{
    let next = check_makes(table, phase.makes.as_slice())?;
    let next = check_block(table, next, &phase.body)?;
    check_lines(table, next, phase.dims.as_slice())?;
    table.clear_regs();
    Ok(())
}

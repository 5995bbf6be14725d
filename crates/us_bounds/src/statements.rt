//! The checks of statements without blocks.

ghost use Rattle.std.specs.Prelude.{◌≡◌, ◌+◌, ◌≤◌, None};
ghost use Rattle.us_code.specs.Plain.{term_tree};
ghost use Rattle.us_code.specs.Plain as plain;
ghost use Rattle.us_code.specs.Typing.{with_reg};
ghost use Rattle.us_bounds.specs.Seen.{context_of};
ghost use Rattle.us_bounds.specs.Steps.{Leads, Checks};

use crate::kinds::{cell_of, fits, fits_cell, is_new, len_of};
use crate::names::{
    is_ordered, keep_flats, keep_nexts, may_let, may_load, may_order, may_put, may_set,
};
use crate::rules::{judge, judge_term};
use crate::stop::{Rule, Stop};
use crate::table::Table;
use crate::terms::{keeps_flats, keeps_nexts, kind_of};
use us_code::{Buf, CellKind, Term};

/// Makes a register visible behind an item.
fn introduce(
    table: &mut Table,
    item: u32,
    reg: u32,
    is_var: bool,
    kind: CellKind,
) -> Result<u32, Stop>
    requires { item + 1 ≤ 65536 }
    ensures { Leads None (item + 1) (with_reg (context_of table.old) reg is_var kind) (context_of table.new) result }
{
    table.add_reg(reg, is_var, kind)?;
    Ok(item + 1)
}

/// `let reg = value`.
pub fn check_let(table: &mut Table, item: u32, reg: u32, value: &Term) -> Result<u32, Stop>
    requires { item + 1 ≤ 65536 }
    ensures { Checks (context_of table.old) item (plain.Let reg (term_tree value.now) plain.End) (context_of table.new) result }
{
    let names = may_let(table, reg, value);
    judge_term(table, item, names, value)?;
    let kind = kind_of(table, value);
    introduce(table, item, reg, false, kind)
}

/// `var reg = value`.
pub fn check_var(table: &mut Table, item: u32, reg: u32, value: &Term) -> Result<u32, Stop>
    requires { item + 1 ≤ 65536 }
    ensures { Checks (context_of table.old) item (plain.Var reg (term_tree value.now) plain.End) (context_of table.new) result }
{
    let names = may_let(table, reg, value);
    judge_term(table, item, names, value)?;
    introduce(table, item, reg, true, CellKind::Word)
}

/// `let reg = buf[at]`.
pub fn check_load(table: &mut Table, item: u32, reg: u32, buf: Buf, at: &Term) -> Result<u32, Stop>
    requires { item + 1 ≤ 65536 }
    ensures { Checks (context_of table.old) item (plain.Load reg buf (term_tree at.now) plain.End) (context_of table.new) result }
{
    let names = may_load(table, reg, buf, at);
    let inside = fits(kind_of(table, at), len_of(table, buf));
    let flats = keeps_flats(table, at);
    let nexts = keeps_nexts(table, at);
    judge(
        item,
        &[
            Rule(1, names),
            Rule(2, inside),
            Rule(5, flats),
            Rule(6, nexts),
        ],
    )?;
    let cell = cell_of(table, buf);
    introduce(table, item, reg, false, cell)
}

/// `put reg = value`.
pub fn check_put(table: &Table, item: u32, reg: u32, value: &Term) -> Result<u32, Stop>
    requires { item + 1 ≤ 65536 }
    ensures { Checks (context_of table.now) item (plain.Put reg (term_tree value.now) plain.End) (context_of table.now) result }
{
    let names = may_put(table, reg, value);
    judge_term(table, item, names, value)?;
    Ok(item + 1)
}

/// `set buf[at] = value`.
pub fn check_set(table: &Table, item: u32, buf: Buf, at: &Term, value: &Term) -> Result<u32, Stop>
    requires { item + 1 ≤ 65536 }
    ensures { Checks (context_of table.now) item (plain.Set buf (term_tree at.now) (term_tree value.now) plain.End) (context_of table.now) result }
{
    let names = may_set(table, buf, at, value);
    let inside = fits(kind_of(table, at), len_of(table, buf));
    let fitting = fits_cell(kind_of(table, value), cell_of(table, buf));
    let flats = keep_flats(table, at, value);
    let nexts = keep_nexts(table, at, value);
    let new = is_new(buf);
    judge(
        item,
        &[
            Rule(1, names),
            Rule(2, inside),
            Rule(3, fitting),
            Rule(5, flats),
            Rule(6, nexts),
            Rule(9, new),
        ],
    )?;
    Ok(item + 1)
}

/// `order buf by keys`.
pub fn check_order(table: &Table, item: u32, buf: Buf, keys: &[Buf]) -> Result<u32, Stop>
    requires { item + 1 ≤ 65536 }
    ensures { Checks (context_of table.now) item (plain.Order buf keys.now plain.End) (context_of table.now) result }
{
    let names = may_order(table, buf, keys);
    let ordered = is_ordered(table, buf, keys);
    let new = is_new(buf);
    judge(item, &[Rule(1, names), Rule(7, ordered), Rule(9, new)])?;
    Ok(item + 1)
}

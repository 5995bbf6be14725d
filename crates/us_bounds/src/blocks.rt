//! The checks of blocks, and of statements with blocks.

ghost use Rattle.std.specs.Prelude.{◌≡◌, ◌+◌, ◌≤◌, true, false};
ghost use Rattle.us_code.specs.Plain.{term_tree, tree_of, alone, other_tree};
ghost use Rattle.us_code.specs.Plain as plain;
ghost use Rattle.us_code.specs.Names.{count};
ghost use Rattle.us_code.specs.Typing.{with_reg};
ghost use Rattle.us_code.specs.Unbound.{broken_in, is_free};
ghost use Rattle.us_code.specs.declared.program.CellKind.TheVariants as kind;
ghost use Rattle.us_bounds.specs.Seen.{context_of};
ghost use Rattle.us_bounds.specs.Steps.{Checks, ChecksScope, Passes};

use crate::kinds::spans;
use crate::leaving::leave;
use crate::names::{keep_flats, keep_nexts, may_loop, may_span, may_test, sees_both};
use crate::rules::{judge, judge_term};
use crate::statements::{check_let, check_load, check_order, check_put, check_set, check_var};
use crate::stop::{Rule, Stop};
use crate::table::Table;
use crate::terms::kind_of;
use us_code::{Block, CellKind, Dim, Stmt, Term};

/// Checks a block whose items are numbered from `item` on; gives the number behind it. Behind it its registers are visible.
#[cycle(check)]
pub fn check_block(table: &mut Table, item: u32, block: &Block) -> Result<u32, Stop>
    requires { item + count (tree_of block.now) ≤ 65536 }
    ensures { Checks (context_of table.old) item (tree_of block.now) (context_of table.new) result }
{
    let mut next = item;
    for stmt in block.stmts.as_slice() {
        next = check_stmt(table, next, stmt)?;
    }
    Ok(next)
}

/// Checks a block, behind which all is visible as before.
#[cycle(check)]
fn check_body(table: &mut Table, item: u32, body: &Block) -> Result<u32, Stop>
    requires { item + count (tree_of body.now) ≤ 65536 }
    ensures { Passes (context_of table.old) item (tree_of body.now) (context_of table.new) result }
{
    let next = check_block(table, item, body)?;
    leave(table, body.stmts.as_slice());
    Ok(next)
}

/// Checks the block behind an `else`, where there is one.
#[cycle(check)]
fn check_other(table: &mut Table, item: u32, other: &Option<Block>) -> Result<u32, Stop>
    requires { item + count (other_tree other.now) ≤ 65536 }
    ensures { Passes (context_of table.old) item (other_tree other.now) (context_of table.new) result }
{
    match other {
        None => Ok(item),
        Some(block) => check_body(table, item, block),
    }
}

/// Checks a block with a register of its own, which is below a dim.
#[cycle(check)]
fn check_scope(
    table: &mut Table,
    item: u32,
    reg: u32,
    below: Dim,
    body: &Block,
) -> Result<u32, Stop>
    requires free { is_free ((context_of table.old).regs reg) ≡ true }
    requires room { item + count (tree_of body.now) ≤ 65536 }
    ensures { ChecksScope (context_of table.old) item reg below (tree_of body.now) (context_of table.new) result }
{
    table.add_reg(reg, false, CellKind::Below(below))?;
    let next = check_body(table, item, body)?;
    table.remove_reg(reg);
    Ok(next)
}

/// `for reg below below`.
#[cycle(check)]
fn check_for(table: &mut Table, item: u32, reg: u32, below: Dim, body: &Block) -> Result<u32, Stop>
    requires { item + 1 + count (tree_of body.now) ≤ 65536 }
    ensures { Checks (context_of table.old) item (plain.For reg below (tree_of body.now) plain.End) (context_of table.new) result }
{
    let names = may_loop(table, reg, below);
    judge(item, &[Rule(1, names)])?;
    check_scope(table, item + 1, reg, below, body)
}

/// `for reg in first to end below below`.
#[cycle(check)]
fn check_span(
    table: &mut Table,
    item: u32,
    reg: u32,
    first: &Term,
    end: &Term,
    below: Dim,
    body: &Block,
) -> Result<u32, Stop>
    requires { item + 1 + count (tree_of body.now) ≤ 65536 }
    ensures { let c = (plain.Span reg (term_tree first.now) (term_tree end.now) below (tree_of body.now) plain.End) in
        Checks (context_of table.old) item c (context_of table.new) result }
{
    let names = may_span(table, reg, below, first, end);
    let ends = spans(table, kind_of(table, first), kind_of(table, end), below);
    let flats = keep_flats(table, first, end);
    let nexts = keep_nexts(table, first, end);
    judge(
        item,
        &[
            Rule(1, names),
            Rule(4, ends),
            Rule(5, flats),
            Rule(6, nexts),
        ],
    )?;
    check_scope(table, item + 1, reg, below, body)
}

/// `if left == right`, or with `<`: the rules are the same.
#[cycle(check)]
fn check_if(
    table: &mut Table,
    item: u32,
    left: &Term,
    right: &Term,
    body: &Block,
    other: &Option<Block>,
) -> Result<u32, Stop>
    requires { item + 1 + count (tree_of body.now) + count (other_tree other.now) ≤ 65536 }
    ensures { let c = (plain.If (term_tree left.now) false (term_tree right.now) (tree_of body.now) false (other_tree other.now) plain.End) in
        Checks (context_of table.old) item c (context_of table.new) result }
{
    let names = sees_both(table, left, right);
    let flats = keep_flats(table, left, right);
    let nexts = keep_nexts(table, left, right);
    judge(item, &[Rule(1, names), Rule(5, flats), Rule(6, nexts)])?;
    let next = check_body(table, item + 1, body)?;
    check_other(table, next, other)
}

/// `when value below below as reg`.
#[cycle(check)]
fn check_when(
    table: &mut Table,
    item: u32,
    value: &Term,
    below: Dim,
    reg: u32,
    body: &Block,
    other: &Option<Block>,
) -> Result<u32, Stop>
    requires { item + 1 + count (tree_of body.now) + count (other_tree other.now) ≤ 65536 }
    ensures { let c = (plain.When (term_tree value.now) below reg (tree_of body.now) false (other_tree other.now) plain.End) in
        Checks (context_of table.old) item c (context_of table.new) result }
{
    let names = may_test(table, reg, below, value);
    judge_term(table, item, names, value)?;
    let next = check_scope(table, item + 1, reg, below, body)?;
    check_other(table, next, other)
}

/// Checks a statement; gives the number of the item behind it.
#[cycle(check)]
fn check_stmt(table: &mut Table, item: u32, stmt: &Stmt) -> Result<u32, Stop>
    requires { item + count (alone stmt.now) ≤ 65536 }
    ensures { Checks (context_of table.old) item (alone stmt.now) (context_of table.new) result }
{
    match stmt {
        Stmt::Let { reg, value } => check_let(table, item, *reg, value),
        Stmt::Load { reg, buf, at } => check_load(table, item, *reg, *buf, at),
        Stmt::Var { reg, value } => check_var(table, item, *reg, value),
        Stmt::Put { reg, value } => check_put(table, item, *reg, value),
        Stmt::Set { buf, at, value } => check_set(table, item, *buf, at, value),
        Stmt::For { reg, below, body } => check_for(table, item, *reg, *below, body),
        Stmt::Span {
            reg,
            first,
            end,
            below,
            body,
        } => check_span(table, item, *reg, first, end, *below, body),
        Stmt::If {
            left,
            equal: _,
            right,
            body,
            other,
        } => check_if(table, item, left, right, body, other),
        Stmt::When {
            value,
            below,
            reg,
            body,
            other,
        } => check_when(table, item, value, *below, *reg, body, other),
        Stmt::Order { buf, keys } => check_order(table, item, *buf, keys.as_slice()),
    }
}

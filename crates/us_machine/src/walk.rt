//! The walk over a block.
ghost use Rattle.std.specs.Prelude.{◌≡◌, ◌+◌, ◌*◌, ◌-◌, ℕ};
ghost use Rattle.us_code.specs.Plain.{alone, tree_of, other_tree};
ghost use Rattle.us_code.specs.Run.{exec, turns};
ghost use Rattle.us_code.specs.Typing.{Context};
ghost use Rattle.us_machine.specs.Steps.{Shows};
ghost use Rattle.us_machine.specs.Tables.{env_of, regs_of};
ghost use Rattle.us_machine.specs.Walks.{Ready, Turning, Leads, state_of, turn_from};

use crate::names::Registers;
use crate::sorting::order;
use crate::steps::{assign, load, place, store, test};
use crate::stop::RunStop;
use crate::tables::Tables;
use crate::terms::eval;
use std::alloc::Global;
use us_code::{Block, Stmt};
use us_matrix::Buffers;
use us_raw::Region;

/// Runs a block. Each statement and each turn of a loop is counted before it begins.
///
/// It stands in place in the loops and in `run_inner`, so the statements of a loop's body take no calls.
#[cycle(walk)]
#[inline(always)]
pub fn run_block(
    block: &Block,
    tables: &Tables,
    source: &Buffers,
    alloc: Global,
    regs: &mut Registers,
    region: &mut Region,
    steps: &mut u64,
) -> Result<(), RunStop>
    requires { (g : Context) × Ready tables.now source.now region.old (regs_of regs.old) g (tree_of block.now) }
    ensures { (n : ℕ) → Shows tables.now.budget steps.old n
        → Leads tables.now source.now result
        (exec (env_of tables.now source.now) (tree_of block.now) (state_of tables.now region.old (regs_of regs.old) n))
        region.new (regs_of regs.new) steps.new }
{
    for stmt in block.stmts.as_slice() {
        run_stmt(stmt, tables, source, alloc, regs, region, steps)?;
    }
    Ok(())
}

/// Runs a statement.
#[cycle(walk)]
#[inline(always)]
fn run_stmt(
    stmt: &Stmt,
    tables: &Tables,
    source: &Buffers,
    alloc: Global,
    regs: &mut Registers,
    region: &mut Region,
    steps: &mut u64,
) -> Result<(), RunStop>
    requires { (g : Context) × Ready tables.now source.now region.old (regs_of regs.old) g (alone stmt.now) }
    ensures { (n : ℕ) → Shows tables.now.budget steps.old n
        → Leads tables.now source.now result
        (exec (env_of tables.now source.now) (alone stmt.now) (state_of tables.now region.old (regs_of regs.old) n))
        region.new (regs_of regs.new) steps.new }
{
    tables.budget.charge(steps, 1)?;
    match stmt {
        Stmt::Let { reg, value } => assign(*reg, value, tables, source, regs),
        Stmt::Load { reg, buf, at } => load(*reg, *buf, at, tables, source, regs, region),
        Stmt::Var { reg, value } => assign(*reg, value, tables, source, regs),
        Stmt::Put { reg, value } => assign(*reg, value, tables, source, regs),
        Stmt::Set { buf, at, value } => {
            store(*buf, at, value, tables, source, regs, region);
            Ok(())
        }
        Stmt::For { reg, below, body } => {
            let end = tables.size(*below, source);
            run_turns(
                *reg, 0, end, body, tables, source, alloc, regs, region, steps,
            )
        }
        Stmt::Span {
            reg,
            first,
            end,
            below: _,
            body,
        } => {
            let first = eval(first, tables, source, regs).cast_unsigned();
            let end = eval(end, tables, source, regs).cast_unsigned();
            run_turns(
                *reg, first, end, body, tables, source, alloc, regs, region, steps,
            )
        }
        Stmt::If {
            left,
            equal,
            right,
            body,
            other,
        } => {
            let left = eval(left, tables, source, regs);
            let right = eval(right, tables, source, regs);
            if test(*equal, left, right) {
                run_inner(body, tables, source, alloc, regs, region, steps)
            } else {
                run_other(other, tables, source, alloc, regs, region, steps)
            }
        }
        Stmt::When {
            value,
            below,
            reg,
            body,
            other,
        } => {
            let value = eval(value, tables, source, regs);
            match place(value, tables.size(*below, source)) {
                Some(_) => {
                    regs.set(*reg, value)?;
                    run_inner(body, tables, source, alloc, regs, region, steps)
                }
                None => run_other(other, tables, source, alloc, regs, region, steps),
            }
        }
        Stmt::Order { buf, keys } => { order(*buf, keys.as_slice(), tables, alloc, region, steps) }
    }
}

/// Runs a block for the numbers from `first` to `end` less 1 in a register.
#[cycle(walk)]
fn run_turns(
    reg: u32,
    first: u64,
    end: u64,
    body: &Block,
    tables: &Tables,
    source: &Buffers,
    alloc: Global,
    regs: &mut Registers,
    region: &mut Region,
    steps: &mut u64,
) -> Result<(), RunStop>
    requires { (g : Context) × Turning tables.now source.now region.old (regs_of regs.old) g reg end (tree_of body.now) }
    ensures { (n : ℕ) → Shows tables.now.budget steps.old n
        → Leads tables.now source.now result
        (turns (end - first) (turn_from (env_of tables.now source.now) reg first (tree_of body.now))
        (state_of tables.now region.old (regs_of regs.old) n))
        region.new (regs_of regs.new) steps.new }
{
    let count = end.saturating_sub(first);
    for turn in 0..count {
        tables.budget.charge(steps, 1)?;
        regs.set(reg, (first + turn) as i64)?;
        run_block(body, tables, source, alloc, regs, region, steps)?;
    }
    Ok(())
}

/// Runs a block that stands in another one. It is never in place there.
#[cycle(walk)]
#[inline(never)]
fn run_inner(
    block: &Block,
    tables: &Tables,
    source: &Buffers,
    alloc: Global,
    regs: &mut Registers,
    region: &mut Region,
    steps: &mut u64,
) -> Result<(), RunStop>
    requires { (g : Context) × Ready tables.now source.now region.old (regs_of regs.old) g (tree_of block.now) }
    ensures { (n : ℕ) → Shows tables.now.budget steps.old n
        → Leads tables.now source.now result
        (exec (env_of tables.now source.now) (tree_of block.now) (state_of tables.now region.old (regs_of regs.old) n))
        region.new (regs_of regs.new) steps.new }
{
    run_block(block, tables, source, alloc, regs, region, steps)
}

/// Runs the block behind an `else`, where there is one.
#[cycle(walk)]
fn run_other(
    other: &Option<Block>,
    tables: &Tables,
    source: &Buffers,
    alloc: Global,
    regs: &mut Registers,
    region: &mut Region,
    steps: &mut u64,
) -> Result<(), RunStop>
    requires { (g : Context) × Ready tables.now source.now region.old (regs_of regs.old) g (other_tree other.now) }
    ensures { (n : ℕ) → Shows tables.now.budget steps.old n
        → Leads tables.now source.now result
        (exec (env_of tables.now source.now) (other_tree other.now) (state_of tables.now region.old (regs_of regs.old) n))
        region.new (regs_of regs.new) steps.new }
{
    match other {
        None => Ok(()),
        Some(block) => run_inner(block, tables, source, alloc, regs, region, steps),
    }
}

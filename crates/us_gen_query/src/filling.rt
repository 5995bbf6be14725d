//! A loop that fills a column.

ghost use Rattle.std.specs.Prelude.{◌≡◌, ◌+◌, ◌<◌, ◌^◌, IfOk, OnOk};
ghost use Rattle.us_code.specs.Plain.{tree_of};
ghost use Rattle.us_expr.specs.Tree.{tree};
ghost use Rattle.us_expr.specs.Value.{IsWithin};
ghost use Rattle.us_gen_query.specs.Filling as filling;

use crate::terms::{reads, term_of};
use std::alloc::{AllocError, Global};
use us_code::{Block, Buf, Columns, Dim, Term, for_below, load, set};
use us_expr::Expr;

/// The buffer of a column of the entries.
fn column(columns: &Columns, number: usize) -> u32
    requires { number < filling.width columns.now }
    ensures { result ≡ filling.column columns.now number }
{
    match number {
        0 => columns.i,
        1 => columns.j,
        _ => columns.vars[number - 2],
    }
}

/// Reads a column behind a block if an expression reads it, at the place in register `place`.
fn load_column(
    columns: &Columns,
    e: &Expr,
    place: u32,
    number: usize,
    block: &mut Block,
) -> Result<(), AllocError>
    requires known { number < filling.width columns.now }
    requires few { number < 34 }
    requires room { place + 36 < 2 ^ 32 }
    ensures { OnOk result (tree_of block.new ≡ filling.load_more columns.now (tree e.now) place number (tree_of block.old)) }
{
    if reads(e, number) {
        let reg = place + 1 + number as u32;
        let buf = Buf::New(column(columns, number));
        block.push(load(reg, buf, Term::Reg(place)))
    } else {
        Ok(())
    }
}

/// Reads the columns that an expression reads, at the place in register `place`, into the registers behind it.
fn loads(alloc: Global, columns: &Columns, e: &Expr, place: u32) -> Result<Block, AllocError>
    requires { place + 36 < 2 ^ 32 }
    ensures { IfOk result (λ b. tree_of b ≡ filling.loads columns.now (tree e.now) place (filling.width columns.now)) }
{
    let mut block = Block::new(alloc);
    for number in 0..columns.vars.len() + 2 {
        load_column(columns, e, place, number, &mut block)?;
    }
    Ok(block)
}

/// The loop that gives each cell of buffer `into` the value of an expression at the entry there. Registers from `next`
/// on are its own, 36 at most. It fails only for want of memory.
pub fn fill(
    alloc: Global,
    columns: &Columns,
    e: &Expr,
    into: u32,
    next: u32,
) -> Result<Block, AllocError>
    requires within { IsWithin 32 (tree e.now) }
    requires room { next + 36 < 2 ^ 32 }
    ensures { IfOk result (λ b. tree_of b ≡ filling.fill columns.now (tree e.now) into next) }
{
    let mut body = loads(alloc, columns, e, next)?;
    let value = term_of(alloc, e, next + 1)?;
    body.push(set(Buf::New(into), Term::Reg(next), value))?;
    Block::of(alloc, for_below(next, Dim::Name(columns.count), body))
}

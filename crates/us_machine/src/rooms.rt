//! How many registers of a block get places in a table.
ghost use Rattle.std.specs.Prelude.{◌≤◌};

use us_code::{Block, Stmt};

/// No more registers get places.
const MOST: usize = 65536;

/// One more than the greatest number of a register that the block gives a value, or 65536 where that is less.
#[cycle(rooms)]
pub fn room(block: &Block) -> usize
    ensures { result ≤ 65536 }
{
    let mut most = 0;
    for stmt in block.stmts.as_slice() {
        most = room_of(stmt).max(most);
    }
    most
}

/// The same of a statement.
#[cycle(rooms)]
fn room_of(stmt: &Stmt) -> usize
    ensures { result ≤ 65536 }
{
    match stmt {
        Stmt::Let { reg, value: _ } => up_to(*reg),
        Stmt::Load { reg, buf: _, at: _ } => up_to(*reg),
        Stmt::Var { reg, value: _ } => up_to(*reg),
        Stmt::Put { reg, value: _ } => up_to(*reg),
        Stmt::Set { .. } => 0,
        Stmt::For {
            reg,
            below: _,
            body,
        } => room(body).max(up_to(*reg)),
        Stmt::Span {
            reg,
            first: _,
            end: _,
            below: _,
            body,
        } => room(body).max(up_to(*reg)),
        Stmt::If {
            left: _,
            equal: _,
            right: _,
            body,
            other,
        } => room(body).max(room_behind(other)),
        Stmt::When {
            value: _,
            below: _,
            reg,
            body,
            other,
        } => room(body).max(room_behind(other)).max(up_to(*reg)),
        Stmt::Order { .. } => 0,
    }
}

/// The same of the block behind an `else`, where there is one.
#[cycle(rooms)]
fn room_behind(other: &Option<Block>) -> usize
    ensures { result ≤ 65536 }
{
    match other {
        None => 0,
        Some(block) => room(block),
    }
}

/// The places that a register needs.
fn up_to(reg: u32) -> usize
    ensures { result ≤ 65536 }
{
    (reg as usize + 1).min(MOST)
}

//! The way out of a block: its own registers are taken away.

ghost use Rattle.std.specs.Prelude.{◌≡◌};
ghost use Rattle.us_code.specs.Plain.{alone, plain_list};
ghost use Rattle.us_bounds.specs.Seen.{behind, context_of};

use crate::table::Table;
use us_code::Stmt;

/// Takes away the register that a statement introduces for those behind it.
#[tactic(auto, using(us_code::proofs::Trees::alones))]
fn forget(table: &mut Table, stmt: &Stmt)
    ensures { context_of table.new ≡ behind (alone stmt.now) (context_of table.old) }
{
    match stmt {
        Stmt::Let { reg, .. } => table.remove_reg(*reg),
        Stmt::Load { reg, .. } => table.remove_reg(*reg),
        Stmt::Var { reg, .. } => table.remove_reg(*reg),
        Stmt::Put { .. } => {}
        Stmt::Set { .. } => {}
        Stmt::For { .. } => {}
        Stmt::Span { .. } => {}
        Stmt::If { .. } => {}
        Stmt::When { .. } => {}
        Stmt::Order { .. } => {}
    }
}

/// Takes away the registers that a block itself introduces.
pub fn leave(table: &mut Table, stmts: &[Stmt])
    ensures { context_of table.new ≡ behind (plain_list stmts.now) (context_of table.old) }
{
    for stmt in stmts {
        forget(table, stmt);
    }
}

//! Entries, put behind those that columns have.

ghost use Rattle.std.specs.Prelude.{◌≡◌, IfOk};
ghost use Rattle.us_code.specs.declared.program.Dim.TheVariants as dim;
ghost use Rattle.us_code.specs.Plain.{term_tree, tree_of};
ghost use Rattle.us_gen.specs.Columns.{append, entry};

use std::alloc::{AllocError, Global};
use us_code::{Block, Buf, Columns, Dim, Term, add, put, set, when};

/// Sets the cell at a counter of the columns of rows, of columns and of values, and raises the counter. The place
/// is in register `next`, under the test that the columns have it.
pub fn append_entry(
    alloc: Global,
    counter: u32,
    next: u32,
    columns: &Columns,
    row: Term,
    col: Term,
    value: Term,
) -> Result<Block, AllocError>
    ensures { IfOk result (λ b. tree_of b ≡ append counter (dim.Name columns.now.count) next (entry columns.now.i columns.now.j columns.now.v (term_tree row) (term_tree col) (term_tree value))) }
{
    let raised = add(alloc, Term::Reg(counter), Term::Number(1))?;
    let mut block = Block::of(alloc, set(Buf::New(columns.i), Term::Reg(next), row))?;
    block.push(set(Buf::New(columns.j), Term::Reg(next), col))?;
    block.push(set(Buf::New(columns.v), Term::Reg(next), value))?;
    block.push(put(counter, raised))?;
    Block::of(
        alloc,
        when(Term::Reg(counter), Dim::Name(columns.count), next, block),
    )
}

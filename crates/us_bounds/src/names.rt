//! Whether the names of an item are visible, and those that it introduces are free.

ghost use Rattle.std.specs.Prelude.{◌≡◌, ◌&&◌};
ghost use Rattle.us_code.specs.Plain.{term_tree};
ghost use Rattle.us_code.specs.Typing.{is_put, sees_dim, sees_cell, sees_buf, sees_bufs, is_below, cell_of, len_of, are_keys};
ghost use Rattle.us_code.specs.Unbound.{is_free, sees_term, keeps_flats, keeps_nexts};
ghost use Rattle.us_bounds.specs.Seen.{context_of};

use crate::kinds::{
    are_keys, cell_of, is_below, is_free_buf, is_free_dim, is_free_reg, len_of, may_change,
    sees_buf, sees_bufs, sees_cell, sees_dim,
};
use crate::table::Table;
use crate::terms::{keeps_flats, keeps_nexts, sees_term};
use us_code::{Buf, Dim, Make, Term};

pub fn may_let(table: &Table, reg: u32, value: &Term) -> bool
    ensures { result ≡ (is_free ((context_of table.now).regs reg) && sees_term (context_of table.now) (term_tree value.now)) }
{
    is_free_reg(table, reg) && sees_term(table, value)
}

pub fn may_load(table: &Table, reg: u32, buf: Buf, at: &Term) -> bool
    ensures { let g = context_of table.now in result ≡ (is_free (g.regs reg) && (sees_buf g buf && sees_term g (term_tree at.now))) }
{
    is_free_reg(table, reg) && (sees_buf(table, buf) && sees_term(table, at))
}

pub fn may_put(table: &Table, reg: u32, value: &Term) -> bool
    ensures { result ≡ (is_put ((context_of table.now).regs reg) && sees_term (context_of table.now) (term_tree value.now)) }
{
    may_change(table, reg) && sees_term(table, value)
}

pub fn sees_both(table: &Table, left: &Term, right: &Term) -> bool
    ensures { result ≡ (sees_term (context_of table.now) (term_tree left.now) && sees_term (context_of table.now) (term_tree right.now)) }
{
    sees_term(table, left) && sees_term(table, right)
}

pub fn keep_flats(table: &Table, left: &Term, right: &Term) -> bool
    ensures { result ≡ (keeps_flats (context_of table.now) (term_tree left.now) && keeps_flats (context_of table.now) (term_tree right.now)) }
{
    keeps_flats(table, left) && keeps_flats(table, right)
}

pub fn keep_nexts(table: &Table, left: &Term, right: &Term) -> bool
    ensures { result ≡ (keeps_nexts (context_of table.now) (term_tree left.now) && keeps_nexts (context_of table.now) (term_tree right.now)) }
{
    keeps_nexts(table, left) && keeps_nexts(table, right)
}

pub fn may_set(table: &Table, buf: Buf, at: &Term, value: &Term) -> bool
    ensures { let g = context_of table.now in result ≡ (sees_buf g buf && (sees_term g (term_tree at.now) && sees_term g (term_tree value.now))) }
{
    sees_buf(table, buf) && sees_both(table, at, value)
}

pub fn may_loop(table: &Table, reg: u32, below: Dim) -> bool
    ensures { result ≡ (is_free ((context_of table.now).regs reg) && sees_dim (context_of table.now) below) }
{
    is_free_reg(table, reg) && sees_dim(table, below)
}

pub fn may_span(table: &Table, reg: u32, below: Dim, first: &Term, end: &Term) -> bool
    ensures { let g = context_of table.now in
        result ≡ (is_free (g.regs reg) && (sees_dim g below && (sees_term g (term_tree first.now) && sees_term g (term_tree end.now)))) }
{
    is_free_reg(table, reg) && (sees_dim(table, below) && sees_both(table, first, end))
}

pub fn may_test(table: &Table, reg: u32, below: Dim, value: &Term) -> bool
    ensures { let g = context_of table.now in result ≡ (is_free (g.regs reg) && (sees_dim g below && sees_term g (term_tree value.now))) }
{
    is_free_reg(table, reg) && (sees_dim(table, below) && sees_term(table, value))
}

pub fn may_order(table: &Table, buf: Buf, keys: &[Buf]) -> bool
    ensures { result ≡ (sees_buf (context_of table.now) buf && sees_bufs (context_of table.now) keys.now) }
{
    sees_buf(table, buf) && sees_bufs(table, keys)
}

/// Whether the cells of a buffer are below its length, and the keys may order it.
pub fn is_ordered(table: &Table, buf: Buf, keys: &[Buf]) -> bool
    ensures { let g = context_of table.now in result ≡ (is_below (cell_of g buf) (len_of g buf) && are_keys g buf keys.now) }
{
    is_below(cell_of(table, buf), len_of(table, buf)) && are_keys(table, buf, keys)
}

pub fn may_make(table: &Table, make: Make) -> bool
    ensures { let g = context_of table.now in result ≡ (is_free (g.bufs make.buf) && (sees_dim g make.len && sees_cell g make.cell)) }
{
    is_free_buf(table, make.buf) && (sees_dim(table, make.len) && sees_cell(table, make.cell))
}

pub fn may_define(table: &Table, dim: u32, value: &Term) -> bool
    ensures { result ≡ (is_free ((context_of table.now).dims dim) && sees_term (context_of table.now) (term_tree value.now)) }
{
    is_free_dim(table, dim) && sees_term(table, value)
}

pub fn may_multiply(table: &Table, dim: u32, left: Dim, right: Dim) -> bool
    ensures { let g = context_of table.now in result ≡ (is_free (g.dims dim) && (sees_dim g left && sees_dim g right)) }
{
    is_free_dim(table, dim) && (sees_dim(table, left) && sees_dim(table, right))
}

pub fn may_succeed(table: &Table, dim: u32, of: Dim) -> bool
    ensures { result ≡ (is_free ((context_of table.now).dims dim) && sees_dim (context_of table.now) of) }
{
    is_free_dim(table, dim) && sees_dim(table, of)
}

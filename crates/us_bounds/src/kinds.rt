//! Kinds of registers and cells, and what they fit below.

ghost use Rattle.std.specs.Prelude.{◌≡◌, ◌+◌, ◌&&◌, not, nat_le};
ghost use Rattle.us_code.specs.Typing.{is_some, same_dim, fits, fits_cell, reg_kind, is_put, buf_len, buf_cell, sees_dim, sees_cell, sees_buf, len_of, cell_of, is_new, is_flat, is_next, is_successor, ends_form, spans, is_below, same_buf, sees_bufs, are_keys, has_room, cell_has_room};
ghost use Rattle.us_code.specs.declared.program.CellKind.TheVariants as kind;
ghost use Rattle.us_code.specs.Unbound.{is_free};
ghost use Rattle.us_bounds.specs.Seen.{context_of, seen_form, seen_reg, seen_buf};

use crate::table::{DimForm, Table};
use us_code::{Buf, CellKind, Dim, Make};

/// Whether two dims are the same number or the same name.
fn same_dim(left: Dim, right: Dim) -> bool
    ensures { result ≡ same_dim left right }
{
    match left {
        Dim::Number(a) => match right {
            Dim::Number(b) => a == b,
            Dim::Name(_) => false,
            Dim::Len(_) => false,
        },
        Dim::Name(a) => match right {
            Dim::Number(_) => false,
            Dim::Name(b) => a == b,
            Dim::Len(_) => false,
        },
        Dim::Len(a) => match right {
            Dim::Number(_) => false,
            Dim::Name(_) => false,
            Dim::Len(b) => a == b,
        },
    }
}

fn same_buf(left: Buf, right: Buf) -> bool
    ensures { result ≡ same_buf left right }
{
    match left {
        Buf::New(a) => match right {
            Buf::New(b) => a == b,
            Buf::Source(_) => false,
        },
        Buf::Source(a) => match right {
            Buf::New(_) => false,
            Buf::Source(b) => a == b,
        },
    }
}

/// Whether what is below one dim is below another: the same dim, or a number that is no smaller.
fn fits_dim(below: Dim, dim: Dim) -> bool
    ensures { result ≡ fits (kind.Below below) dim }
{
    match below {
        Dim::Number(m) => match dim {
            Dim::Number(n) => m <= n,
            Dim::Name(_) => false,
            Dim::Len(_) => false,
        },
        Dim::Name(d) => match dim {
            Dim::Number(_) => false,
            Dim::Name(e) => d == e,
            Dim::Len(_) => false,
        },
        Dim::Len(k) => match dim {
            Dim::Number(_) => false,
            Dim::Name(_) => false,
            Dim::Len(e) => k == e,
        },
    }
}

/// Whether a kind fits below a dim.
pub fn fits(kind: CellKind, dim: Dim) -> bool
    ensures { result ≡ fits kind dim }
{
    match kind {
        CellKind::Word => false,
        CellKind::Below(below) => fits_dim(below, dim),
    }
}

/// Whether a value of a kind may be stored in a cell.
pub fn fits_cell(kind: CellKind, cell: CellKind) -> bool
    ensures { result ≡ fits_cell kind cell }
{
    match cell {
        CellKind::Word => true,
        CellKind::Below(dim) => fits(kind, dim),
    }
}

/// Whether a cell is below exactly this dim.
pub fn is_below(cell: CellKind, dim: Dim) -> bool
    ensures { result ≡ is_below cell dim }
{
    match cell {
        CellKind::Word => false,
        CellKind::Below(below) => same_dim(below, dim),
    }
}

/// Whether a place and a digit fit the factors of the dim, a product.
pub fn is_flat(form: Option<DimForm>, place: CellKind, digit: CellKind) -> bool
    ensures { result ≡ is_flat (seen_form form) place digit }
{
    match form {
        None => false,
        Some(DimForm::Of) => false,
        Some(DimForm::Product(left, right)) => fits(place, left) && fits(digit, right),
        Some(DimForm::Successor(_)) => false,
    }
}

/// Whether a kind fits below what the dim is the successor of.
pub fn is_next(form: Option<DimForm>, kind: CellKind) -> bool
    ensures { result ≡ is_next (seen_form form) kind }
{
    match form {
        None => false,
        Some(DimForm::Of) => false,
        Some(DimForm::Product(_, _)) => false,
        Some(DimForm::Successor(dim)) => fits(kind, dim),
    }
}

fn is_successor(form: Option<DimForm>) -> bool
    ensures { result ≡ is_successor (seen_form form) }
{
    match form {
        None => false,
        Some(DimForm::Of) => false,
        Some(DimForm::Product(_, _)) => false,
        Some(DimForm::Successor(_)) => true,
    }
}

/// Whether a dim is one more than another.
fn ends(form: Option<DimForm>, dim: Dim) -> bool
    ensures { result ≡ ends_form (seen_form form) dim }
{
    match form {
        None => false,
        Some(DimForm::Of) => false,
        Some(DimForm::Product(_, _)) => false,
        Some(DimForm::Successor(of)) => same_dim(of, dim),
    }
}

/// Whether no register of this name is visible.
pub fn is_free_reg(table: &Table, reg: u32) -> bool
    ensures { result ≡ is_free ((context_of table.now).regs reg) }
{
    match table.reg(reg) {
        None => true,
        Some(_) => false,
    }
}

pub fn sees_reg(table: &Table, reg: u32) -> bool
    ensures { result ≡ is_some ((context_of table.now).regs reg) }
{
    match table.reg(reg) {
        None => false,
        Some(_) => true,
    }
}

/// What a register holds, a word where it isn't visible.
pub fn kind_of_reg(table: &Table, reg: u32) -> CellKind
    ensures { result ≡ reg_kind ((context_of table.now).regs reg) }
{
    match table.reg(reg) {
        None => CellKind::Word,
        Some(register) => register.kind,
    }
}

/// Whether a register is one that `put` may change.
pub fn may_change(table: &Table, reg: u32) -> bool
    ensures { result ≡ is_put ((context_of table.now).regs reg) }
{
    match table.reg(reg) {
        None => false,
        Some(register) => register.is_var,
    }
}

pub fn is_free_buf(table: &Table, buf: u32) -> bool
    ensures { result ≡ is_free ((context_of table.now).bufs buf) }
{
    match table.buf(buf) {
        None => true,
        Some(_) => false,
    }
}

pub fn sees_new(table: &Table, buf: u32) -> bool
    ensures { result ≡ is_some ((context_of table.now).bufs buf) }
{
    match table.buf(buf) {
        None => false,
        Some(_) => true,
    }
}

fn len_of_new(table: &Table, buf: u32) -> Dim
    ensures { result ≡ buf_len ((context_of table.now).bufs buf) }
{
    match table.buf(buf) {
        None => Dim::Number(0),
        Some(buffer) => buffer.len,
    }
}

fn cell_of_new(table: &Table, buf: u32) -> CellKind
    ensures { result ≡ buf_cell ((context_of table.now).bufs buf) }
{
    match table.buf(buf) {
        None => CellKind::Word,
        Some(buffer) => buffer.cell,
    }
}

pub fn is_free_dim(table: &Table, dim: u32) -> bool
    ensures { result ≡ is_free ((context_of table.now).dims dim) }
{
    match table.form(dim) {
        None => true,
        Some(_) => false,
    }
}

pub fn sees_name(table: &Table, dim: u32) -> bool
    ensures { result ≡ is_some ((context_of table.now).dims dim) }
{
    match table.form(dim) {
        None => false,
        Some(_) => true,
    }
}

/// Whether a dim is visible.
pub fn sees_dim(table: &Table, dim: Dim) -> bool
    ensures { result ≡ sees_dim (context_of table.now) dim }
{
    match dim {
        Dim::Number(_) => true,
        Dim::Name(d) => sees_name(table, d),
        Dim::Len(k) => table.has_source(k),
    }
}

/// Whether the dim of a cell is visible, where it has one.
pub fn sees_cell(table: &Table, cell: CellKind) -> bool
    ensures { result ≡ sees_cell (context_of table.now) cell }
{
    match cell {
        CellKind::Word => true,
        CellKind::Below(dim) => sees_dim(table, dim),
    }
}

/// Whether a buffer is visible.
pub fn sees_buf(table: &Table, buf: Buf) -> bool
    ensures { result ≡ sees_buf (context_of table.now) buf }
{
    match buf {
        Buf::New(b) => sees_new(table, b),
        Buf::Source(k) => table.has_source(k),
    }
}

/// Whether all of the buffers are visible.
#[tactic(auto, using(crate::proofs::Lists::bufs))]
pub fn sees_bufs(table: &Table, bufs: &[Buf]) -> bool
    ensures { result ≡ sees_bufs (context_of table.now) bufs.now }
{
    for buf in bufs {
        if !sees_buf(table, *buf) {
            return false;
        }
    }
    true
}

/// The length of a buffer, 0 where it isn't visible.
pub fn len_of(table: &Table, buf: Buf) -> Dim
    ensures { result ≡ len_of (context_of table.now) buf }
{
    match buf {
        Buf::New(b) => len_of_new(table, b),
        Buf::Source(k) => Dim::Len(k),
    }
}

/// What the cells of a buffer hold.
pub fn cell_of(table: &Table, buf: Buf) -> CellKind
    ensures { result ≡ cell_of (context_of table.now) buf }
{
    match buf {
        Buf::New(b) => cell_of_new(table, b),
        Buf::Source(_) => CellKind::Word,
    }
}

pub fn is_new(buf: Buf) -> bool
    ensures { result ≡ is_new buf }
{
    match buf {
        Buf::New(_) => true,
        Buf::Source(_) => false,
    }
}

/// Whether a buffer may be a key of the order of another.
fn is_key(table: &Table, ordered: Buf, key: Buf) -> bool
    ensures { result ≡ (same_dim (len_of (context_of table.now) key) (len_of (context_of table.now) ordered) && not (same_buf key ordered)) }
{
    same_dim(len_of(table, key), len_of(table, ordered)) && !same_buf(key, ordered)
}

/// Whether the buffers may be the keys of the order of another.
#[tactic(auto, using(crate::proofs::Lists::keys))]
pub fn are_keys(table: &Table, ordered: Buf, keys: &[Buf]) -> bool
    ensures { result ≡ are_keys (context_of table.now) ordered keys.now }
{
    for key in keys {
        if !is_key(table, ordered, *key) {
            return false;
        }
    }
    true
}

/// Whether numbers that are below `first` and below `end` are at most `n`.
fn spans_number(first: u64, end: u64, n: u64) -> bool
    ensures { result ≡ (nat_le first (n + 1) && nat_le end (n + 1)) }
{
    first.saturating_sub(1) <= n && end.saturating_sub(1) <= n
}

/// Whether both ends of a span fit below one dim that is one more than `dim`.
pub fn spans(table: &Table, first: CellKind, end: CellKind, dim: Dim) -> bool
    ensures { result ≡ spans (context_of table.now) first end dim }
{
    match first {
        CellKind::Word => false,
        CellKind::Below(Dim::Len(_)) => false,
        CellKind::Below(Dim::Number(a)) => match end {
            CellKind::Word => false,
            CellKind::Below(Dim::Number(b)) => match dim {
                Dim::Number(n) => spans_number(a, b, n),
                Dim::Name(_) => false,
                Dim::Len(_) => false,
            },
            CellKind::Below(Dim::Name(_)) => false,
            CellKind::Below(Dim::Len(_)) => false,
        },
        CellKind::Below(Dim::Name(a)) => match end {
            CellKind::Word => false,
            CellKind::Below(Dim::Number(_)) => false,
            CellKind::Below(Dim::Name(b)) => a == b && ends(table.form(a), dim),
            CellKind::Below(Dim::Len(_)) => false,
        },
    }
}

/// Whether 0 is below the bound of a cell wherever there is a cell.
pub fn cell_has_room(table: &Table, make: Make) -> bool
    ensures { result ≡ cell_has_room (context_of table.now) make.cell make.len }
{
    match make.cell {
        CellKind::Word => true,
        CellKind::Below(dim) => has_room(table, dim, make.len),
    }
}

fn has_room(table: &Table, dim: Dim, len: Dim) -> bool
    ensures { result ≡ has_room (context_of table.now) dim len }
{
    match dim {
        Dim::Number(n) => n > 0 || same_dim(dim, len),
        Dim::Name(d) => is_successor(table.form(d)) || same_dim(dim, len),
        Dim::Len(_) => same_dim(dim, len),
    }
}

//! Lines of statements, `new` lines and dim lines.

ghost use Rattle.std.specs.Prelude.{◌≡◌, ◌++◌, OnOk, codes};
ghost use Rattle.us_code.specs.Plain.{term_tree, line_tree};
ghost use Rattle.us_code_print.specs.Canon.{dim_text, register_text, cell_text, value_text, loaded_text, assign_line, load_line, set_line, bound_text, range_text, for_line, span_line, relation_text, compared_text, if_line, as_text, within_text, when_line, keys_text, order_line, indent, newline, opened, line, length_text, make_line, dim_head, defined_text, dim_line};

use crate::terms::push_term;
use crate::words::{push_buf, push_bufs, push_dim, push_kind, push_name};
use std::alloc::AllocError;
use us_code::{Buf, Dim, DimLine, Make, Term};

/// Two spaces for each open brace.
pub fn push_indent(out: &mut Vec<u8>, depth: u32) -> Result<(), AllocError>
    ensures { OnOk result (out.new.items ≡ out.old.items ++ indent depth) }
{
    for _ in 0..depth {
        out.extend_from_slice(b"  ")?;
    }
    Ok(())
}

/// A line that holds these bytes.
pub fn push_line(out: &mut Vec<u8>, depth: u32, text: &[u8]) -> Result<(), AllocError>
    ensures { OnOk result (out.new.items ≡ out.old.items ++ line depth text.now) }
{
    push_indent(out, depth)?;
    out.extend_from_slice(text)?;
    out.extend_from_slice(b"\n")
}

/// A buffer and the index in brackets.
fn push_cell(out: &mut Vec<u8>, buf: Buf, at: &Term) -> Result<(), AllocError>
    ensures { OnOk result (out.new.items ≡ out.old.items ++ cell_text buf (term_tree at.now)) }
{
    push_buf(out, buf)?;
    out.extend_from_slice(b"[")?;
    push_term(out, at)?;
    out.extend_from_slice(b"]")
}

/// What a register or a cell gets.
fn push_value(out: &mut Vec<u8>, value: &Term) -> Result<(), AllocError>
    ensures { OnOk result (out.new.items ≡ out.old.items ++ value_text (term_tree value.now)) }
{
    out.extend_from_slice(b" = ")?;
    push_term(out, value)?;
    out.extend_from_slice(b"\n")
}

/// The cell that a register gets.
fn push_loaded(out: &mut Vec<u8>, buf: Buf, at: &Term) -> Result<(), AllocError>
    ensures { OnOk result (out.new.items ≡ out.old.items ++ loaded_text buf (term_tree at.now)) }
{
    out.extend_from_slice(b" = ")?;
    push_cell(out, buf, at)?;
    out.extend_from_slice(b"\n")
}

/// The line of a statement that begins with the word and gives a register a value.
pub fn push_assign(
    out: &mut Vec<u8>,
    depth: u32,
    word: &[u8],
    reg: u32,
    value: &Term,
) -> Result<(), AllocError>
    ensures { OnOk result (out.new.items ≡ out.old.items ++ assign_line depth word.now reg (term_tree value.now)) }
{
    push_indent(out, depth)?;
    out.extend_from_slice(word)?;
    push_name(out, b"r", reg)?;
    push_value(out, value)
}

pub fn push_load(
    out: &mut Vec<u8>,
    depth: u32,
    reg: u32,
    buf: Buf,
    at: &Term,
) -> Result<(), AllocError>
    ensures { OnOk result (out.new.items ≡ out.old.items ++ load_line depth reg buf (term_tree at.now)) }
{
    push_indent(out, depth)?;
    out.extend_from_slice(b"let ")?;
    push_name(out, b"r", reg)?;
    push_loaded(out, buf, at)
}

pub fn push_set(
    out: &mut Vec<u8>,
    depth: u32,
    buf: Buf,
    at: &Term,
    value: &Term,
) -> Result<(), AllocError>
    ensures { OnOk result (out.new.items ≡ out.old.items ++ set_line depth buf (term_tree at.now) (term_tree value.now)) }
{
    push_indent(out, depth)?;
    out.extend_from_slice(b"set ")?;
    push_cell(out, buf, at)?;
    push_value(out, value)
}

/// The bound of a loop, and the brace behind it.
fn push_bound(out: &mut Vec<u8>, below: Dim) -> Result<(), AllocError>
    ensures { OnOk result (out.new.items ≡ out.old.items ++ bound_text below) }
{
    out.extend_from_slice(b" below ")?;
    push_dim(out, below)?;
    out.extend_from_slice(b" {\n")
}

/// The range of a loop and its bound, and the brace behind it.
fn push_range(out: &mut Vec<u8>, first: &Term, end: &Term, below: Dim) -> Result<(), AllocError>
    ensures { OnOk result (out.new.items ≡ out.old.items ++ range_text (term_tree first.now) (term_tree end.now) below) }
{
    out.extend_from_slice(b" in ")?;
    push_term(out, first)?;
    out.extend_from_slice(b" to ")?;
    push_term(out, end)?;
    push_bound(out, below)
}

pub fn push_for(out: &mut Vec<u8>, depth: u32, reg: u32, below: Dim) -> Result<(), AllocError>
    ensures { OnOk result (out.new.items ≡ out.old.items ++ for_line depth reg below) }
{
    push_indent(out, depth)?;
    out.extend_from_slice(b"for ")?;
    push_name(out, b"r", reg)?;
    push_bound(out, below)
}

pub fn push_span(
    out: &mut Vec<u8>,
    depth: u32,
    reg: u32,
    first: &Term,
    end: &Term,
    below: Dim,
) -> Result<(), AllocError>
    ensures { OnOk result (out.new.items ≡ out.old.items ++ span_line depth reg (term_tree first.now) (term_tree end.now) below) }
{
    push_indent(out, depth)?;
    out.extend_from_slice(b"for ")?;
    push_name(out, b"r", reg)?;
    push_range(out, first, end, below)
}

fn push_relation(out: &mut Vec<u8>, equal: bool) -> Result<(), AllocError>
    ensures { OnOk result (out.new.items ≡ out.old.items ++ relation_text equal) }
{
    if equal {
        out.extend_from_slice(b" == ")
    } else {
        out.extend_from_slice(b" < ")
    }
}

/// What an `if` compares, and the brace behind it.
fn push_compared(
    out: &mut Vec<u8>,
    left: &Term,
    equal: bool,
    right: &Term,
) -> Result<(), AllocError>
    ensures { OnOk result (out.new.items ≡ out.old.items ++ compared_text (term_tree left.now) equal (term_tree right.now)) }
{
    push_term(out, left)?;
    push_relation(out, equal)?;
    push_term(out, right)?;
    out.extend_from_slice(b" {\n")
}

pub fn push_if(
    out: &mut Vec<u8>,
    depth: u32,
    left: &Term,
    equal: bool,
    right: &Term,
) -> Result<(), AllocError>
    ensures { OnOk result (out.new.items ≡ out.old.items ++ if_line depth (term_tree left.now) equal (term_tree right.now)) }
{
    push_indent(out, depth)?;
    out.extend_from_slice(b"if ")?;
    push_compared(out, left, equal, right)
}

fn push_as(out: &mut Vec<u8>, reg: u32) -> Result<(), AllocError>
    ensures { OnOk result (out.new.items ≡ out.old.items ++ as_text reg) }
{
    out.extend_from_slice(b" as ")?;
    push_name(out, b"r", reg)?;
    out.extend_from_slice(b" {\n")
}

fn push_within(out: &mut Vec<u8>, below: Dim, reg: u32) -> Result<(), AllocError>
    ensures { OnOk result (out.new.items ≡ out.old.items ++ within_text below reg) }
{
    out.extend_from_slice(b" below ")?;
    push_dim(out, below)?;
    push_as(out, reg)
}

pub fn push_when(
    out: &mut Vec<u8>,
    depth: u32,
    value: &Term,
    below: Dim,
    reg: u32,
) -> Result<(), AllocError>
    ensures { OnOk result (out.new.items ≡ out.old.items ++ when_line depth (term_tree value.now) below reg) }
{
    push_indent(out, depth)?;
    out.extend_from_slice(b"when ")?;
    push_term(out, value)?;
    push_within(out, below, reg)
}

fn push_keys(out: &mut Vec<u8>, keys: &[Buf]) -> Result<(), AllocError>
    ensures { OnOk result (out.new.items ≡ out.old.items ++ keys_text keys.now) }
{
    out.extend_from_slice(b" by ")?;
    push_bufs(out, keys)?;
    out.extend_from_slice(b"\n")
}

pub fn push_order(out: &mut Vec<u8>, depth: u32, buf: Buf, keys: &[Buf]) -> Result<(), AllocError>
    ensures { OnOk result (out.new.items ≡ out.old.items ++ order_line depth buf keys.now) }
{
    push_indent(out, depth)?;
    out.extend_from_slice(b"order ")?;
    push_buf(out, buf)?;
    push_keys(out, keys)
}

/// A length in brackets.
fn push_length(out: &mut Vec<u8>, len: Dim) -> Result<(), AllocError>
    ensures { OnOk result (out.new.items ≡ out.old.items ++ length_text len) }
{
    out.extend_from_slice(b"[")?;
    push_dim(out, len)?;
    out.extend_from_slice(b"]")
}

pub fn push_make(out: &mut Vec<u8>, make: &Make) -> Result<(), AllocError>
    ensures { OnOk result (out.new.items ≡ out.old.items ++ make_line make.now) }
{
    out.extend_from_slice(b"    new ")?;
    push_name(out, b"b", make.buf)?;
    push_length(out, make.len)?;
    push_kind(out, make.cell)
}

/// The front of a dim line.
fn push_dim_head(out: &mut Vec<u8>, dim: u32) -> Result<(), AllocError>
    ensures { OnOk result (out.new.items ≡ out.old.items ++ dim_head dim) }
{
    out.extend_from_slice(b"    dim ")?;
    push_name(out, b"d", dim)
}

fn push_defined(out: &mut Vec<u8>, dim: Dim) -> Result<(), AllocError>
    ensures { OnOk result (out.new.items ≡ out.old.items ++ defined_text dim) }
{
    out.extend_from_slice(b" = ")?;
    push_dim(out, dim)
}

pub fn push_dim_line(out: &mut Vec<u8>, line: &DimLine) -> Result<(), AllocError>
    ensures { OnOk result (out.new.items ≡ out.old.items ++ dim_line (line_tree line.now)) }
{
    match line {
        DimLine::Of { dim, value } => {
            push_dim_head(out, *dim)?;
            out.extend_from_slice(b" of ")?;
            push_term(out, value)?;
            out.extend_from_slice(b"\n")
        }
        DimLine::Product { dim, left, right } => {
            push_dim_head(out, *dim)?;
            push_defined(out, *left)?;
            out.extend_from_slice(b" * ")?;
            push_dim(out, *right)?;
            out.extend_from_slice(b"\n")
        }
        DimLine::Next { dim, of } => {
            push_dim_head(out, *dim)?;
            push_defined(out, *of)?;
            out.extend_from_slice(b" + 1\n")
        }
    }
}

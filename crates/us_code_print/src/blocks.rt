//! Blocks and their statements.

ghost use Rattle.std.specs.Prelude.{◌≡◌, ◌+◌, ◌++◌, OnOk, IfOk};
ghost use Rattle.us_code.specs.Plain.{tree_of, alone, was_given, other_tree};
ghost use Rattle.us_code_print.specs.Canon.{closed_lines, else_lines, block_lines};

use crate::lines::{
    push_assign, push_for, push_if, push_line, push_load, push_order, push_set, push_span,
    push_when,
};
use std::alloc::AllocError;
use us_code::{Block, Stmt};

/// One brace more. Where they are too many to count, the spaces of one line are too many for any memory.
fn deeper(depth: u32) -> Result<u32, AllocError>
    ensures { IfOk result (λ n. n ≡ depth + 1) }
{
    depth.checked_add(1).ok_or(AllocError)
}

#[cycle(block)]
#[tactic(auto, using(crate::proofs::Printed::printed))]
pub fn push_block(out: &mut Vec<u8>, depth: u32, block: &Block) -> Result<(), AllocError>
    ensures { OnOk result (out.new.items ≡ out.old.items ++ block_lines depth (tree_of block.now)) }
{
    for stmt in block.stmts.as_slice() {
        push_stmt(out, depth, stmt)?;
    }
    Ok(())
}

/// A block inside another one.
#[cycle(block)]
fn push_inner(out: &mut Vec<u8>, depth: u32, block: &Block) -> Result<(), AllocError>
    ensures { OnOk result (out.new.items ≡ out.old.items ++ block_lines (depth + 1) (tree_of block.now)) }
{
    push_block(out, deeper(depth)?, block)
}

/// A block inside another one, and its closing brace.
#[cycle(block)]
fn push_closed(out: &mut Vec<u8>, depth: u32, block: &Block) -> Result<(), AllocError>
    ensures { OnOk result (out.new.items ≡ out.old.items ++ closed_lines depth (block_lines (depth + 1) (tree_of block.now))) }
{
    push_inner(out, depth, block)?;
    push_line(out, depth, b"}")
}

/// The closing brace of a block, and the `else` behind it where there is one.
#[cycle(block)]
fn push_else(out: &mut Vec<u8>, depth: u32, other: &Option<Block>) -> Result<(), AllocError>
    ensures { OnOk result (out.new.items ≡ out.old.items ++ else_lines depth (was_given other.now) (block_lines (depth + 1) (other_tree other.now))) }
{
    match other {
        None => push_line(out, depth, b"}"),
        Some(block) => {
            push_line(out, depth, b"} else {")?;
            push_closed(out, depth, block)
        }
    }
}

#[cycle(block)]
fn push_stmt(out: &mut Vec<u8>, depth: u32, stmt: &Stmt) -> Result<(), AllocError>
    ensures { OnOk result (out.new.items ≡ out.old.items ++ block_lines depth (alone stmt.now)) }
{
    match stmt {
        Stmt::Let { reg, value } => push_assign(out, depth, b"let ", *reg, value),
        Stmt::Load { reg, buf, at } => push_load(out, depth, *reg, *buf, at),
        Stmt::Var { reg, value } => push_assign(out, depth, b"var ", *reg, value),
        Stmt::Put { reg, value } => push_assign(out, depth, b"put ", *reg, value),
        Stmt::Set { buf, at, value } => push_set(out, depth, *buf, at, value),
        Stmt::For { reg, below, body } => {
            push_for(out, depth, *reg, *below)?;
            push_closed(out, depth, body)
        }
        Stmt::Span {
            reg,
            first,
            end,
            below,
            body,
        } => {
            push_span(out, depth, *reg, first, end, *below)?;
            push_closed(out, depth, body)
        }
        Stmt::If {
            left,
            equal,
            right,
            body,
            other,
        } => {
            push_if(out, depth, left, *equal, right)?;
            push_inner(out, depth, body)?;
            push_else(out, depth, other)
        }
        Stmt::When {
            value,
            below,
            reg,
            body,
            other,
        } => {
            push_when(out, depth, value, *below, *reg)?;
            push_inner(out, depth, body)?;
            push_else(out, depth, other)
        }
        Stmt::Order { buf, keys } => push_order(out, depth, *buf, keys.as_slice()),
    }
}

//! Statements, and what each is as a plain tree.

ghost use Rattle.std.specs.Prelude.{◌≡◌, false};
ghost use Rattle.us_code.specs.Plain.{term_tree, tree_of, alone, was_given, other_tree};
ghost use Rattle.us_code.specs.Plain as plain;

use crate::program::{Block, Buf, Bufs, Dim, Stmt, Term};

/// `let reg = value`.
#[tactic(auto, using(crate::proofs::Trees::alones))]
pub fn let_reg(reg: u32, value: Term) -> Stmt
    ensures { alone result ≡ plain.Let reg (term_tree value) plain.End }
{
    Stmt::Let { reg, value }
}

/// `let reg = buf[at]`.
#[tactic(auto, using(crate::proofs::Trees::alones))]
pub fn load(reg: u32, buf: Buf, at: Term) -> Stmt
    ensures { alone result ≡ plain.Load reg buf (term_tree at) plain.End }
{
    Stmt::Load { reg, buf, at }
}

/// `var reg = value`.
#[tactic(auto, using(crate::proofs::Trees::alones))]
pub fn var(reg: u32, value: Term) -> Stmt
    ensures { alone result ≡ plain.Var reg (term_tree value) plain.End }
{
    Stmt::Var { reg, value }
}

/// `put reg = value`.
#[tactic(auto, using(crate::proofs::Trees::alones))]
pub fn put(reg: u32, value: Term) -> Stmt
    ensures { alone result ≡ plain.Put reg (term_tree value) plain.End }
{
    Stmt::Put { reg, value }
}

/// `set buf[at] = value`.
#[tactic(auto, using(crate::proofs::Trees::alones))]
pub fn set(buf: Buf, at: Term, value: Term) -> Stmt
    ensures { alone result ≡ plain.Set buf (term_tree at) (term_tree value) plain.End }
{
    Stmt::Set { buf, at, value }
}

/// `for reg below below`.
#[tactic(auto, using(crate::proofs::Trees::alones))]
pub fn for_below(reg: u32, below: Dim, body: Block) -> Stmt
    ensures { alone result ≡ plain.For reg below (tree_of body) plain.End }
{
    Stmt::For { reg, below, body }
}

/// `for reg in first to end below below`.
#[tactic(auto, using(crate::proofs::Trees::alones))]
pub fn span(reg: u32, first: Term, end: Term, below: Dim, body: Block) -> Stmt
    ensures { alone result ≡ plain.Span reg (term_tree first) (term_tree end) below (tree_of body) plain.End }
{
    Stmt::Span {
        reg,
        first,
        end,
        below,
        body,
    }
}

/// `if left == right`, or `if left < right` where `equal` is false.
#[tactic(auto, using(crate::proofs::Trees::alones))]
pub fn if_else(left: Term, equal: bool, right: Term, body: Block, other: Option<Block>) -> Stmt
    ensures { alone result ≡ plain.If (term_tree left) equal (term_tree right) (tree_of body) (was_given other) (other_tree other) plain.End }
{
    Stmt::If {
        left,
        equal,
        right,
        body,
        other,
    }
}

/// `when value below below as reg`.
#[tactic(auto, using(crate::proofs::Trees::alones))]
pub fn when_else(value: Term, below: Dim, reg: u32, body: Block, other: Option<Block>) -> Stmt
    ensures { alone result ≡ plain.When (term_tree value) below reg (tree_of body) (was_given other) (other_tree other) plain.End }
{
    Stmt::When {
        value,
        below,
        reg,
        body,
        other,
    }
}

/// `when value below below as reg`, without another block.
#[tactic(auto, using(crate::proofs::Trees::alone_when_only))]
pub fn when(value: Term, below: Dim, reg: u32, body: Block) -> Stmt
    ensures { alone result ≡ plain.When (term_tree value) below reg (tree_of body) false plain.End plain.End }
{
    Stmt::When {
        value,
        below,
        reg,
        body,
        other: None,
    }
}

/// `order buf by keys`.
#[tactic(auto, using(crate::proofs::Trees::alones))]
pub fn order(buf: Buf, keys: Bufs) -> Stmt
    ensures { alone result ≡ plain.Order buf keys plain.End }
{
    Stmt::Order { buf, keys }
}

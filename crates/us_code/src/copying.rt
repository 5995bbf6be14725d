//! Copies of programs.

ghost use Rattle.std.specs.Prelude.{◌≡◌, IfOk, map};
ghost use Rattle.us_code.specs.Plain.{term_tree, tree_of, alone, line_tree, phase_tree, program_tree, was_given, other_tree};

use crate::program::{
    Block, Bufs, DimLine, DimLines, Makes, Numbers, Phase, Phases, Program, Stmt, Term,
};
use crate::statements::{for_below, if_else, let_reg, load, order, put, set, span, var, when_else};
use crate::terms::{add, div, flat, mul, next, rem, sub, up};
use std::alloc::{AllocError, Global};

impl Program {
    /// An equal program.
    pub fn copy(&self, alloc: Global) -> Result<Program, AllocError>
        ensures { IfOk result (λ p. program_tree p ≡ program_tree self.now) }
    {
        Ok(Program {
            sources: self.sources,
            phases: copy_phases(alloc, self.phases.as_slice())?,
            give: Numbers::from_slice(alloc, self.give.as_slice())?,
        })
    }
}

#[tactic(auto, using(crate::proofs::Copies::copies))]
fn copy_phases(alloc: Global, phases: &[Phase]) -> Result<Phases, AllocError>
    ensures { IfOk result (λ ps. map phase_tree ps ≡ map phase_tree phases.now) }
{
    let mut copy = Phases::new(alloc);
    for phase in phases {
        copy.push(phase.copy(alloc)?)?;
    }
    Ok(copy)
}

impl Phase {
    /// An equal phase.
    pub fn copy(&self, alloc: Global) -> Result<Phase, AllocError>
        ensures { IfOk result (λ p. phase_tree p ≡ phase_tree self.now) }
    {
        Ok(Phase {
            makes: Makes::from_slice(alloc, self.makes.as_slice())?,
            body: self.body.copy(alloc)?,
            dims: copy_lines(alloc, self.dims.as_slice())?,
        })
    }
}

#[tactic(auto, using(crate::proofs::Copies::copies))]
fn copy_lines(alloc: Global, lines: &[DimLine]) -> Result<DimLines, AllocError>
    ensures { IfOk result (λ ls. map line_tree ls ≡ map line_tree lines.now) }
{
    let mut copy = DimLines::new(alloc);
    for line in lines {
        copy.push(line.copy(alloc)?)?;
    }
    Ok(copy)
}

impl DimLine {
    /// An equal dim line.
    pub fn copy(&self, alloc: Global) -> Result<DimLine, AllocError>
        ensures { IfOk result (λ l. line_tree l ≡ line_tree self.now) }
    {
        Ok(match self {
            DimLine::Of { dim, value } => DimLine::Of {
                dim: *dim,
                value: value.copy(alloc)?,
            },
            DimLine::Product { dim, left, right } => DimLine::Product {
                dim: *dim,
                left: *left,
                right: *right,
            },
            DimLine::Next { dim, of } => DimLine::Next { dim: *dim, of: *of },
        })
    }
}

impl Term {
    /// An equal term.
    pub fn copy(&self, alloc: Global) -> Result<Term, AllocError>
        ensures { IfOk result (λ t. term_tree t ≡ term_tree self.now) }
    {
        match self {
            Term::Number(n) => Ok(Term::Number(*n)),
            Term::Reg(r) => Ok(Term::Reg(*r)),
            Term::Size(d) => Ok(Term::Size(*d)),
            Term::Flat(d, p, c) => flat(alloc, *d, p.copy(alloc)?, c.copy(alloc)?),
            Term::Next(d, x) => next(alloc, *d, x.copy(alloc)?),
            Term::Up(d, x) => up(alloc, *d, x.copy(alloc)?),
            Term::Add(a, b) => add(alloc, a.copy(alloc)?, b.copy(alloc)?),
            Term::Sub(a, b) => sub(alloc, a.copy(alloc)?, b.copy(alloc)?),
            Term::Mul(a, b) => mul(alloc, a.copy(alloc)?, b.copy(alloc)?),
            Term::Div(a, k) => div(alloc, a.copy(alloc)?, *k),
            Term::Rem(a, k) => rem(alloc, a.copy(alloc)?, *k),
        }
    }
}

impl Block {
    /// An equal block.
    #[cycle(copy)]
    #[tactic(auto, using(crate::proofs::Copies::copies))]
    pub fn copy(&self, alloc: Global) -> Result<Block, AllocError>
        ensures { IfOk result (λ b. tree_of b ≡ tree_of self.now) }
    {
        let mut copy = Block::new(alloc);
        for stmt in self.stmts.as_slice() {
            copy.push(stmt.copy(alloc)?)?;
        }
        Ok(copy)
    }
}

impl Stmt {
    /// An equal statement.
    #[cycle(copy)]
    #[tactic(auto, using(crate::proofs::Trees::alones))]
    pub fn copy(&self, alloc: Global) -> Result<Stmt, AllocError>
        ensures { IfOk result (λ s. alone s ≡ alone self.now) }
    {
        match self {
            Stmt::Let { reg, value } => Ok(let_reg(*reg, value.copy(alloc)?)),
            Stmt::Load { reg, buf, at } => Ok(load(*reg, *buf, at.copy(alloc)?)),
            Stmt::Var { reg, value } => Ok(var(*reg, value.copy(alloc)?)),
            Stmt::Put { reg, value } => Ok(put(*reg, value.copy(alloc)?)),
            Stmt::Set { buf, at, value } => Ok(set(*buf, at.copy(alloc)?, value.copy(alloc)?)),
            Stmt::For { reg, below, body } => Ok(for_below(*reg, *below, body.copy(alloc)?)),
            Stmt::Span {
                reg,
                first,
                end,
                below,
                body,
            } => {
                let first = first.copy(alloc)?;
                let end = end.copy(alloc)?;
                Ok(span(*reg, first, end, *below, body.copy(alloc)?))
            }
            Stmt::If {
                left,
                equal,
                right,
                body,
                other,
            } => {
                let left = left.copy(alloc)?;
                let right = right.copy(alloc)?;
                let body = body.copy(alloc)?;
                Ok(if_else(left, *equal, right, body, copy_other(alloc, other)?))
            }
            Stmt::When {
                value,
                below,
                reg,
                body,
                other,
            } => {
                let value = value.copy(alloc)?;
                let body = body.copy(alloc)?;
                Ok(when_else(value, *below, *reg, body, copy_other(alloc, other)?))
            }
            Stmt::Order { buf, keys } => Ok(order(*buf, Bufs::from_slice(alloc, keys.as_slice())?)),
        }
    }
}

/// The block behind an `else`, where there is one.
#[cycle(copy)]
fn copy_other(alloc: Global, other: &Option<Block>) -> Result<Option<Block>, AllocError>
    ensures given { IfOk result (λ o. was_given o ≡ was_given other.now) }
    ensures block { IfOk result (λ o. other_tree o ≡ other_tree other.now) }
{
    match other {
        None => Ok(None),
        Some(block) => Ok(Some(block.copy(alloc)?)),
    }
}

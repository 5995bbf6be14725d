//! Nests of levels, built from the inside out.

ghost use Rattle.std.specs.Prelude.{◌≡◌, ◌+◌, ◌*◌, ◌<◌, ◌≤◌, ◌^◌, length, IfOk};
ghost use Rattle.us_code.specs.Plain.{term_tree, tree_of};
ghost use Rattle.us_gen.specs.Nest as nested;
ghost use Rattle.us_gen.specs.Levels as nests;

use std::alloc::{AllocError, Global};
use us_code::{Block, Buf, Dim, Term, add, for_below, load, mul, span, when};

/// What the loops of a level go over.
#[derive(Clone, Copy, Debug, PartialEq, Eq)]
pub enum Level {
    /// Each coordinate below the size.
    Full { size: Dim },
    /// The nodes under a position, by source `pos`. `more` is one more than the nodes.
    Nodes { pos: u32, more: Dim, nodes: Dim },
    /// The coordinate in source `crd` at the position, which is in its range by its kind.
    Crd { crd: u32 },
    /// The coordinate in source `crd` at the position, under a test.
    Cell { crd: u32 },
    /// The coordinate in column `digit` of a pack of `width` columns, under a test.
    Packed { pack: u32, width: u64, digit: u64 },
}

impl Level {
    /// How many registers the level names.
    pub fn names(&self) -> u32
        ensures count { result ≡ nests.names self.now }
        ensures few { result ≤ 7 }
    {
        match self {
            Level::Full { size: _ } => 1,
            Level::Nodes {
                pos: _,
                more: _,
                nodes: _,
            } => 7,
            Level::Crd { crd: _ } => 1,
            Level::Cell { crd: _ } => 2,
            Level::Packed {
                pack: _,
                width: _,
                digit: _,
            } => 2,
        }
    }

    /// The term of the position inside, under this one. Registers from `next` on are the level's own.
    pub fn position(&self, alloc: Global, position: &Term, next: u32) -> Result<Term, AllocError>
        requires { next + 7 < 2 ^ 32 }
        ensures { IfOk result (λ t. term_tree t ≡ nests.position self.now (term_tree position.now) next) }
    {
        match self {
            Level::Full { size } => under(alloc, position, *size, next),
            Level::Nodes {
                pos: _,
                more: _,
                nodes: _,
            } => Ok(Term::Reg(next + 6)),
            Level::Crd { crd: _ } => position.copy(alloc),
            Level::Cell { crd: _ } => position.copy(alloc),
            Level::Packed {
                pack: _,
                width: _,
                digit: _,
            } => position.copy(alloc),
        }
    }

    /// The level's loops around a block. Registers from `next` on are the level's own.
    pub fn around(
        &self,
        alloc: Global,
        position: &Term,
        next: u32,
        inner: Block,
    ) -> Result<Block, AllocError>
        requires { next + 7 < 2 ^ 32 }
        ensures { IfOk result (λ b. tree_of b ≡ nests.level self.now (term_tree position.now) next (tree_of inner)) }
    {
        match self {
            Level::Full { size } => Block::of(alloc, for_below(next, *size, inner)),
            Level::Nodes { pos, more, nodes } => node_level(
                alloc, position, *pos, *more, *nodes, next, inner,
            ),
            Level::Crd { crd } => crd_level(alloc, position, *crd, next, inner),
            Level::Cell { crd } => cell_level(alloc, position.copy(alloc)?, *crd, next, inner),
            Level::Packed { pack, width, digit } => {
                cell_level(
                    alloc,
                    in_pack(alloc, position, *width, *digit)?,
                    *pack,
                    next,
                    inner,
                )
            }
        }
    }
}

/// Whether the term is the number 0.
fn is_origin(term: &Term) -> bool
    ensures { result ≡ nested.is_origin (term_tree term.now) }
{
    match term {
        Term::Number(n) => *n == 0,
        Term::Reg(_) => false,
        Term::Size(_) => false,
        Term::Flat(_, _, _) => false,
        Term::Next(_, _) => false,
        Term::Up(_, _) => false,
        Term::Add(_, _) => false,
        Term::Sub(_, _) => false,
        Term::Mul(_, _) => false,
        Term::Div(_, _) => false,
        Term::Rem(_, _) => false,
    }
}

/// A dim as a term.
fn size_term(size: Dim) -> Term
    ensures { term_tree result ≡ nests.size_term size }
{
    match size {
        Dim::Number(n) => Term::Number(n),
        Dim::Name(d) => Term::Size(Dim::Name(d)),
        Dim::Len(k) => Term::Size(Dim::Len(k)),
    }
}

/// The position of the coordinate in register `reg` under a position, at a level of this size.
fn under(alloc: Global, position: &Term, size: Dim, reg: u32) -> Result<Term, AllocError>
    ensures { IfOk result (λ t. term_tree t ≡ nested.under (term_tree position.now) (nests.size_term size) reg) }
{
    if is_origin(position) {
        Ok(Term::Reg(reg))
    } else {
        let start = mul(alloc, position.copy(alloc)?, size_term(size))?;
        add(alloc, start, Term::Reg(reg))
    }
}

/// The place of column `digit` at a position of a pack.
fn in_pack(alloc: Global, position: &Term, width: u64, digit: u64) -> Result<Term, AllocError>
    ensures { IfOk result (λ t. term_tree t ≡ nests.in_pack (term_tree position.now) width digit) }
{
    let start = mul(alloc, position.copy(alloc)?, Term::Number(width))?;
    add(alloc, start, Term::Number(digit))
}

/// Reads the coordinate at a position into register `next`.
fn crd_level(
    alloc: Global,
    position: &Term,
    crd: u32,
    next: u32,
    inner: Block,
) -> Result<Block, AllocError>
    ensures { IfOk result (λ b. tree_of b ≡ nested.crd_level (term_tree position.now) crd next (tree_of inner)) }
{
    let mut block = Block::of(alloc, load(next, Buf::Source(crd), position.copy(alloc)?))?;
    block.append(inner)?;
    Ok(block)
}

/// Reads the coordinate at a place into register `next + 1`, under a test.
fn cell_level(
    alloc: Global,
    at: Term,
    crd: u32,
    next: u32,
    inner: Block,
) -> Result<Block, AllocError>
    requires { next + 7 < 2 ^ 32 }
    ensures { IfOk result (λ b. tree_of b ≡ nested.cell_level (term_tree at) crd next (tree_of inner)) }
{
    let mut block = Block::of(alloc, load(next + 1, Buf::Source(crd), Term::Reg(next)))?;
    block.append(inner)?;
    Block::of(alloc, when(at, Dim::Len(crd), next, block))
}

/// The loop over the nodes between two loaded ends.
fn node_turns(
    alloc: Global,
    more: Dim,
    nodes: Dim,
    next: u32,
    inner: Block,
) -> Result<Block, AllocError>
    requires { next + 7 < 2 ^ 32 }
    ensures { IfOk result (λ b. tree_of b ≡ nests.node_turns more nodes next (tree_of inner)) }
{
    let first = Term::Reg(next + 4);
    let end = Term::Reg(next + 5);
    let turns = Block::of(alloc, span(next + 6, first, end, nodes, inner))?;
    let below_end = Block::of(alloc, when(Term::Reg(next + 3), more, next + 5, turns))?;
    Block::of(alloc, when(Term::Reg(next + 1), more, next + 4, below_end))
}

/// The loop over the nodes under a position.
fn node_level(
    alloc: Global,
    position: &Term,
    pos: u32,
    more: Dim,
    nodes: Dim,
    next: u32,
    inner: Block,
) -> Result<Block, AllocError>
    requires { next + 7 < 2 ^ 32 }
    ensures { IfOk result (λ b. tree_of b ≡ nested.node_level (term_tree position.now) pos more nodes next (tree_of inner)) }
{
    let mut end = Block::of(alloc, load(next + 3, Buf::Source(pos), Term::Reg(next + 2)))?;
    end.append(node_turns(alloc, more, nodes, next, inner)?)?;
    let after = add(alloc, position.copy(alloc)?, Term::Number(1))?;
    let mut start = Block::of(alloc, load(next + 1, Buf::Source(pos), Term::Reg(next)))?;
    start.append(Block::of(alloc, when(after, Dim::Len(pos), next + 2, end))?)?;
    Block::of(
        alloc,
        when(position.copy(alloc)?, Dim::Len(pos), next, start),
    )
}

/// The loops of levels around a block, the outermost level first. Registers from `next` on are the levels' own.
pub fn nest(
    alloc: Global,
    levels: &[Level],
    position: &Term,
    next: u32,
    inner: Block,
) -> Result<Block, AllocError>
    requires { next + 7 * length levels.now + 7 < 2 ^ 32 }
    ensures { IfOk result (λ b. tree_of b ≡ nests.nest levels.now (term_tree position.now) next (tree_of inner)) }
{
    match levels {
        [] => Ok(inner),
        [level, rest @ ..] => {
            let place = level.position(alloc, position, next)?;
            let block = nest(alloc, rest, &place, next + level.names(), inner)?;
            level.around(alloc, position, next, block)
        }
    }
}

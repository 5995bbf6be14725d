//! What the loop over the entries does at each level.

ghost use Rattle.std.specs.Prelude.{◌≡◌, ◌+◌, ◌<◌, ◌^◌, IfOk};
ghost use Rattle.us_code.specs.Plain.{term_tree, tree_of, End};
ghost use Rattle.us_code.specs.Plain as plain;
ghost use Rattle.us_gen.specs.Nest.{is_origin};
ghost use Rattle.us_gen_build.specs.declared.levels.Role.TheVariants as role;
ghost use Rattle.us_gen_build.specs.Levels as parts;
ghost use Rattle.us_gen_build.specs.Levels.{level_tree, level_trees, HaveNames};

use std::alloc::{AllocError, Global};
use us_code::{Block, Buf, Dim, Term, add, if_else, mul, put, set, sub, var, when};

/// How a level numbers its positions, and what it writes.
#[derive(Clone, Copy, Debug, PartialEq, Eq)]
pub enum Role {
    /// Each coordinate below the size is a position. Nothing is written.
    Full,
    /// Entries in a row with equal coordinates up to here share a node. `pos` and `crd` are written.
    Shared,
    /// Each entry has a node, whose number is the entry's rank. `pos` and `crd` are written.
    Single,
    /// The positions are those above. `crd` is written.
    AtPosition,
    /// The positions are those above, where each is its entry's rank. `crd` is written.
    AtRank,
    /// Entries in a row with equal coordinates up to here share a node. Nothing is written.
    Counted,
    /// Each entry has a node, whose number is the entry's rank. `pos` is written, and a pack has the coordinates.
    Marked,
    /// The positions are those above. Nothing is written, and a pack has the coordinates.
    Kept,
}

/// A level in the loop over the entries.
#[derive(Drop)]
pub struct BuildLevel {
    pub role: Role,
    /// Whether there is one position above, so that `pos` has no place to be marked at.
    pub is_top: bool,
    /// The first of four registers and of the two new buffers `pos` and `crd` that are the level's own.
    pub first: u32,
    /// How many coordinates there are.
    pub size: Term,
    /// The coordinate of the entry, or any other number that is to be written.
    pub coord: Term,
    /// One more than the positions above.
    pub pos_length: Dim,
    /// The positions here.
    pub crd_length: Dim,
}

/// Whether the term is the number 0.
fn is_zero(term: &Term) -> bool
    ensures { result ≡ is_origin (term_tree term.now) }
{
    match term {
        Term::Number(n) => *n == 0,
        Term::Reg(_) => false,
        Term::Size(_) => false,
        Term::Flat(_, _, _) => false,
        Term::Next(_, _) => false,
        Term::Up(_, _) => false,
        Term::Add(_, _) => false,
        Term::Sub(_, _) => false,
        Term::Mul(_, _) => false,
        Term::Div(_, _) => false,
        Term::Rem(_, _) => false,
    }
}

/// The number -1.
fn minus_one(alloc: Global) -> Result<Term, AllocError>
    ensures { IfOk result (λ t. term_tree t ≡ parts.minus_one) }
{
    sub(alloc, Term::Number(0), Term::Number(1))
}

impl BuildLevel {
    /// The position of the coordinate under a position, at a full level.
    fn under(&self, alloc: Global, position: &Term) -> Result<Term, AllocError>
        ensures { IfOk result (λ t. term_tree t ≡ parts.under (term_tree position.now) (term_tree self.now.size) (term_tree self.now.coord)) }
    {
        if is_zero(position) {
            self.coord.copy(alloc)
        } else {
            let start = mul(alloc, position.copy(alloc)?, self.size.copy(alloc)?)?;
            add(alloc, start, self.coord.copy(alloc)?)
        }
    }

    /// The term of the position here, under a position. The turn is in register `turn`. It fails only for want of memory.
    pub fn below(&self, alloc: Global, position: &Term, turn: u32) -> Result<Term, AllocError>
        requires { self.now.first + 4 < 2 ^ 32 }
        ensures { IfOk result (λ t. term_tree t ≡ parts.below_of self.now.role (level_tree self.now) (term_tree position.now) turn) }
    {
        match self.role {
            Role::Full => self.under(alloc, position),
            Role::Shared => Ok(Term::Reg(self.first + 1)),
            Role::Single => Ok(Term::Reg(turn)),
            Role::AtPosition => position.copy(alloc),
            Role::AtRank => position.copy(alloc),
            Role::Counted => Ok(Term::Reg(self.first + 1)),
            Role::Marked => Ok(Term::Reg(turn)),
            Role::Kept => position.copy(alloc),
        }
    }

    /// Sets the cell of `pos` behind a position to the number in a register plus 1.
    fn mark(&self, alloc: Global, position: &Term, number: u32) -> Result<Block, AllocError>
        requires { self.now.first + 4 < 2 ^ 32 }
        ensures { IfOk result (λ b. tree_of b ≡ parts.mark self.now.is_top (level_tree self.now) (term_tree position.now) (parts.one_more number) End) }
    {
        if self.is_top {
            Ok(Block::new(alloc))
        } else {
            let count = add(alloc, Term::Reg(number), Term::Number(1))?;
            let behind = add(alloc, position.copy(alloc)?, Term::Number(1))?;
            let cell = set(Buf::New(self.first), Term::Reg(self.first + 2), count);
            let marked = Block::of(alloc, cell)?;
            Block::of(alloc, when(behind, self.pos_length, self.first + 2, marked))
        }
    }

    /// Sets the cell of `crd` at a place to the coordinate.
    fn cell_at(&self, alloc: Global, place: Term) -> Result<Block, AllocError>
        requires { self.now.first + 4 < 2 ^ 32 }
        ensures { IfOk result (λ b. tree_of b ≡ parts.cell_at (level_tree self.now) (term_tree place) End) }
    {
        let cell = set(
            Buf::New(self.first + 1),
            Term::Reg(self.first + 3),
            self.coord.copy(alloc)?,
        );
        let written = Block::of(alloc, cell)?;
        Block::of(alloc, when(place, self.crd_length, self.first + 3, written))
    }

    /// Sets the cell of `crd` at the turn to the coordinate.
    fn cell_at_rank(&self, alloc: Global, turn: u32) -> Result<Block, AllocError>
        requires { self.now.first + 4 < 2 ^ 32 }
        ensures { IfOk result (λ b. tree_of b ≡ parts.block_of role.AtRank (level_tree self.now) (plain.Number 0) turn End) }
    {
        let coord = self.coord.copy(alloc)?;
        Block::of(alloc, set(Buf::New(self.first + 1), Term::Reg(turn), coord))
    }

    /// Makes the key and the node those of a new node.
    fn new_node(&self, alloc: Global, position: &Term) -> Result<Block, AllocError>
        requires { self.now.first + 4 < 2 ^ 32 }
        ensures { IfOk result (λ b. tree_of b ≡ parts.new_node (level_tree self.now) (term_tree position.now) End) }
    {
        let key = self.under(alloc, position)?;
        let next = add(alloc, Term::Reg(self.first + 1), Term::Number(1))?;
        let mut block = Block::of(alloc, put(self.first, key))?;
        block.push(put(self.first + 1, next))?;
        Ok(block)
    }

    /// Does a block where the key isn't that of the entry before.
    fn if_new(&self, alloc: Global, position: &Term, made: Block) -> Result<Block, AllocError>
        ensures { IfOk result (λ b. tree_of b ≡ parts.if_new (level_tree self.now) (term_tree position.now) (tree_of made) End) }
    {
        let key = self.under(alloc, position)?;
        let same = Block::new(alloc);
        Block::of(
            alloc,
            if_else(key, true, Term::Reg(self.first), same, Some(made)),
        )
    }

    /// Writes what a new node of entries that share it has.
    fn shared(&self, alloc: Global, position: &Term) -> Result<Block, AllocError>
        requires { self.now.first + 4 < 2 ^ 32 }
        ensures { IfOk result (λ b. tree_of b ≡ parts.block_of role.Shared (level_tree self.now) (term_tree position.now) 0 End) }
    {
        let mut made = self.new_node(alloc, position)?;
        made.append(self.mark(alloc, position, self.first + 1)?)?;
        made.append(self.cell_at(alloc, Term::Reg(self.first + 1))?)?;
        self.if_new(alloc, position, made)
    }

    /// Writes what the node of an entry of its own has.
    fn single(&self, alloc: Global, position: &Term, turn: u32) -> Result<Block, AllocError>
        requires { self.now.first + 4 < 2 ^ 32 }
        ensures { IfOk result (λ b. tree_of b ≡ parts.block_of role.Single (level_tree self.now) (term_tree position.now) turn End) }
    {
        let mut block = self.mark(alloc, position, turn)?;
        block.append(self.cell_at_rank(alloc, turn)?)?;
        Ok(block)
    }

    /// Makes the registers of the level's key and node, and goes on with a block.
    fn no_node(&self, alloc: Global, inner: Block) -> Result<Block, AllocError>
        requires { self.now.first + 4 < 2 ^ 32 }
        ensures { IfOk result (λ b. tree_of b ≡ parts.no_node (level_tree self.now) (tree_of inner)) }
    {
        let mut block = Block::of(alloc, var(self.first, minus_one(alloc)?))?;
        block.push(var(self.first + 1, minus_one(alloc)?))?;
        block.append(inner)?;
        Ok(block)
    }

    /// Makes the registers that the level needs in front of the loop, and goes on with a block.
    fn open(&self, alloc: Global, inner: Block) -> Result<Block, AllocError>
        requires { self.now.first + 4 < 2 ^ 32 }
        ensures { IfOk result (λ b. tree_of b ≡ parts.open_of self.now.role (level_tree self.now) (tree_of inner)) }
    {
        match self.role {
            Role::Full => Ok(inner),
            Role::Shared => self.no_node(alloc, inner),
            Role::Single => Ok(inner),
            Role::AtPosition => Ok(inner),
            Role::AtRank => Ok(inner),
            Role::Counted => self.no_node(alloc, inner),
            Role::Marked => Ok(inner),
            Role::Kept => Ok(inner),
        }
    }

    /// What the loop does at the level, under a position. The turn is in register `turn`.
    fn block(&self, alloc: Global, position: &Term, turn: u32) -> Result<Block, AllocError>
        requires { self.now.first + 4 < 2 ^ 32 }
        ensures { IfOk result (λ b. tree_of b ≡ parts.block_of self.now.role (level_tree self.now) (term_tree position.now) turn End) }
    {
        match self.role {
            Role::Full => Ok(Block::new(alloc)),
            Role::Shared => self.shared(alloc, position),
            Role::Single => self.single(alloc, position, turn),
            Role::AtPosition => self.cell_at(alloc, position.copy(alloc)?),
            Role::AtRank => self.cell_at_rank(alloc, turn),
            Role::Counted => {
                let made = self.new_node(alloc, position)?;
                self.if_new(alloc, position, made)
            }
            Role::Marked => self.mark(alloc, position, turn),
            Role::Kept => Ok(Block::new(alloc)),
        }
    }
}

/// What the loop over the entries does at each level, the outermost first, under a position. The turn is in register
/// `turn`. It fails only for want of memory.
pub fn each_level(
    alloc: Global,
    levels: &[BuildLevel],
    position: &Term,
    turn: u32,
) -> Result<Block, AllocError>
    requires { HaveNames levels.now }
    ensures { IfOk result (λ b. tree_of b ≡ parts.levels (level_trees levels.now) (term_tree position.now) turn) }
{
    match levels {
        [] => Ok(Block::new(alloc)),
        [level, rest @ ..] => {
            let below = level.below(alloc, position, turn)?;
            let mut block = level.block(alloc, position, turn)?;
            block.append(each_level(alloc, rest, &below, turn)?)?;
            Ok(block)
        }
    }
}

/// Makes the registers that the levels need in front of the loop, and goes on with a block. It fails only for want of
/// memory.
pub fn open_levels(alloc: Global, levels: &[BuildLevel], inner: Block) -> Result<Block, AllocError>
    requires { HaveNames levels.now }
    ensures { IfOk result (λ b. tree_of b ≡ parts.opens (level_trees levels.now) (tree_of inner)) }
{
    match levels {
        [] => Ok(inner),
        [level, rest @ ..] => {
            let block = open_levels(alloc, rest, inner)?;
            level.open(alloc, block)
        }
    }
}

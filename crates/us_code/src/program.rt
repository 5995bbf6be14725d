//! The types of programs. Registers, new buffers, dims and sources are named by their numbers.

use sqlite_items::Items;

/// The `new` lines of a phase, in order.
pub type Makes = Items<Make>;

/// The dim lines of a phase, in order.
pub type DimLines = Items<DimLine>;

/// The phases of a program, in order.
pub type Phases = Items<Phase>;

/// Buffers, in order.
pub type Bufs = Items<Buf>;

/// Numbers of new buffers, in order.
pub type Numbers = Items<u32>;

/// A program: on its sources it makes the lists that it gives.
#[derive(Drop)]
pub struct Program {
    /// How many source buffers there are.
    pub sources: u32,
    pub phases: Phases,
    /// The new buffers that are the result, in order.
    pub give: Numbers,
}

/// A step of a program: new buffers of zeros, a block, and dims.
#[derive(Drop)]
pub struct Phase {
    pub makes: Makes,
    pub body: Block,
    pub dims: DimLines,
}

/// A length or a bound.
#[derive(Clone, Copy, Debug, PartialEq, Eq)]
pub enum Dim {
    /// This number, at most 9223372036854775807.
    Number(u64),
    /// The value of the dim with this number.
    Name(u32),
    /// The length of the source with this number.
    Len(u32),
}

/// A buffer.
#[derive(Clone, Copy, Debug, PartialEq, Eq)]
pub enum Buf {
    New(u32),
    Source(u32),
}

/// What the cells of a new buffer hold.
#[derive(Clone, Copy, Debug, PartialEq, Eq)]
pub enum CellKind {
    /// Any signed number of 64 bits.
    Word,
    /// A number from 0 to the dim less 1.
    Below(Dim),
}

/// A new buffer, of `len` zeros.
#[derive(Clone, Copy, Debug, PartialEq, Eq)]
pub struct Make {
    pub buf: u32,
    pub len: Dim,
    pub cell: CellKind,
}

/// The definition of a dim.
#[derive(Drop)]
pub enum DimLine {
    /// The value, or 0 where it is negative.
    Of { dim: u32, value: Term },
    Product { dim: u32, left: Dim, right: Dim },
    /// One more.
    Next { dim: u32, of: Dim },
}

/// An expression over registers and dims.
#[derive(Drop)]
pub enum Term {
    /// This number, at most 9223372036854775807.
    Number(u64),
    Reg(u32),
    /// The value of the dim.
    Size(Dim),
    /// For a dim that is a product: the first term times the right factor, and the second term.
    Flat(u32, Box<Term>, Box<Term>),
    /// For a dim that is a successor: one more than the term.
    Next(u32, Box<Term>),
    /// For a dim that is a successor: the term itself.
    Up(u32, Box<Term>),
    Add(Box<Term>, Box<Term>),
    Sub(Box<Term>, Box<Term>),
    Mul(Box<Term>, Box<Term>),
    /// The floor quotient, by 1 or more.
    Div(Box<Term>, u64),
    /// The floor remainder, by 1 or more.
    Rem(Box<Term>, u64),
}

/// Statements, one after the other.
#[cycle(code)]
#[derive(Drop)]
pub struct Block {
    pub stmts: Items<Stmt>,
}

/// A statement.
#[cycle(code)]
#[derive(Drop)]
pub enum Stmt {
    /// A new register gets the value.
    Let {
        reg: u32,
        value: Term,
    },
    /// A new register gets the cell.
    Load {
        reg: u32,
        buf: Buf,
        at: Term,
    },
    /// A new register, which `Put` may change, gets the value.
    Var {
        reg: u32,
        value: Term,
    },
    /// A register that `Var` made gets the value.
    Put {
        reg: u32,
        value: Term,
    },
    /// The cell gets the value.
    Set {
        buf: Buf,
        at: Term,
        value: Term,
    },
    /// The block runs for the register from 0 to `below` less 1.
    For {
        reg: u32,
        below: Dim,
        body: Block,
    },
    /// The block runs for the register from `first` to `end` less 1.
    Span {
        reg: u32,
        first: Term,
        end: Term,
        below: Dim,
        body: Block,
    },
    /// The first block runs if the terms are equal, or if the left one is less; else the other one.
    If {
        left: Term,
        equal: bool,
        right: Term,
        body: Block,
        other: Option<Block>,
    },
    /// The first block runs, with the value in the register, if it is from 0 to `below` less 1; else the other one.
    When {
        value: Term,
        below: Dim,
        reg: u32,
        body: Block,
        other: Option<Block>,
    },
    /// The buffer becomes the list of its places in ascending order of the keys there, then of the place.
    Order {
        buf: Buf,
        keys: Bufs,
    },
}

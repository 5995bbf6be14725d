//! Pieces of programs, and the numbers that they introduce.

ghost use Rattle.std.specs.Prelude.{◌≡◌, ◌+◌, ◌<◌, ◌^◌, ℕ};

use crate::program::{Numbers, Phases};
use arrayvec::ArrayVec;
use std::marker::Model;

/// The next number that no register, new buffer or dim has yet. One counter serves all three.
#[derive(Debug, Drop)]
pub struct Fresh {
    next: u32,
}

impl Model for Fresh {
    ghost Value = { ℕ };

    ghost view = { λ f. f.next };
}

impl Fresh {
    /// The number 0 comes first.
    pub fn new() -> Fresh
        ensures { result ≡ 0 }
    {
        Fresh { next: 0 }
    }

    /// The next number. It stays the next one.
    pub fn next(&self) -> u32
        ensures { result ≡ self.now }
    {
        self.next
    }

    /// Takes `count` numbers from the next one on.
    pub fn take(&mut self, count: u32)
        requires { self.old + count < 2 ^ 32 }
        ensures { self.new ≡ self.old + count }
    {
        self.next += count;
    }
}

/// New buffers of one cell per entry, and the dim that is their length.
#[derive(Debug, Drop)]
pub struct Columns {
    /// The dim: how many entries there are.
    pub count: u32,
    /// The buffer of the rows.
    pub i: u32,
    /// The buffer of the columns.
    pub j: u32,
    /// The buffer of the values.
    pub v: u32,
    /// A buffer for each variable.
    pub vars: ArrayVec<u32, 32>,
}

/// Phases that list entries.
#[derive(Drop)]
pub struct ListPiece {
    pub phases: Phases,
    pub columns: Columns,
}

/// Phases that count: a column for each variable, and buffers of extents and tables.
#[derive(Drop)]
pub struct QueryPiece {
    pub phases: Phases,
    pub columns: Columns,
    pub buffers: Numbers,
}

/// Phases that build the buffers of a part.
#[derive(Drop)]
pub struct BuildPiece {
    pub phases: Phases,
    pub buffers: Numbers,
}

//! Bytes in one allocation of their own.
ghost use Rattle.std.specs.Prelude.{◌≡◌, ℕ, ◌+◌, ◌<◌, ◌≤◌, ◌^◌, List, length, take, drop, replicate, IfOk};

use super::raw::{Bytes, Right, Start, allocate, free};
use std::alloc::{AllocError, Global};
use std::marker::Model;

/// Bytes that stand in one allocation, seen as their list.
pub struct Block {
    start: Start,
    size: usize,
    bytes: Bytes,
    right: Right<Global>,
    alloc: Global,
}

impl Model for Block {
    ghost Value = { List ℕ };

    ghost view = { λ b. b.bytes.written };

    ghost invariant = { λ b. (b.bytes.at ≡ b.start.ptr) × (length b.bytes.written ≡ b.size) × (b.bytes.room ≡ 0)
        × (b.right.at ≡ b.start.ptr) × (b.right.size ≡ b.size) × (b.right.alloc ≡ b.alloc) };
}

impl Drop for Block {
    fn drop(self) {
        let Block {
            start,
            size,
            bytes,
            right,
            alloc,
        } = self;
        free(&alloc, start, size, bytes, right);
    }
}

impl Block {
    ghost use Rattle.std.specs.Borrow.{sem};
    ghost use Rattle.us_raw.specs.BlockLends.{lends_middle};

    /// `size` bytes, all 0.
    pub(crate) fn zeroed(alloc: Global, size: usize) -> Result<Block, AllocError>
        requires { size < 2 ^ 63 }
        ensures { IfOk result (λ b. b ≡ replicate size 0) }
    {
        let (start, mut bytes, right) = allocate(&alloc, size)?;
        for index in 0..size {
            bytes.push(start, index, 0);
        }
        Ok(Block {
            start,
            size,
            bytes,
            right,
            alloc,
        })
    }

    /// All the bytes.
    pub(crate) fn bytes(&self) -> &[u8]
        ensures { (result.now ≡ self.now) × (length self.now < 2 ^ 64) }
    {
        self.bytes.whole(self.start, self.size)
    }

    /// The bytes before the index `from`, the `count` that begin there, to be
    /// written, and those behind them.
    pub(crate) fn cut(&mut self, from: usize, count: usize) -> (&[u8], &mut [u8], &[u8])
        requires { from + count ≤ length self.old }
        ensures* writes_back { sem 𝓛 (lends_middle self.entry from count result.1) }
        ensures parts { (result.0.now ≡ take from self.old) × (result.1.now ≡ take count (drop from self.old))
            × (result.2.now ≡ drop (from + count) self.old) }
    {
        self.bytes.cut(self.start, self.size, from, count)
    }
}

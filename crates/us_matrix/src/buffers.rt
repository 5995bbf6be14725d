//! Lists of cells, as a format keeps them.
ghost use Rattle.std.specs.Prelude.{◌≡◌, ◌<◌, [], ◌∷◌, ◌++◌, OnOk, OnErr, length, slice_index_or};

use std::alloc::{AllocError, Global};
use std::marker::Model;

/// Lists of cells in order. Contracts see it as a list of lists.
#[derive(Debug, Drop)]
pub struct Buffers {
    lists: Vec<Vec<i64>>,
}

impl Model for Buffers {
    ghost use Rattle.std.specs.Prelude.{List, ℤ, map, All};

    ghost Value = { List (List ℤ) };

    ghost view = { λ b. map (λ v. v.items) b.lists.items };
}

impl Buffers {
    /// No list.
    pub fn new(alloc: Global) -> Buffers
        ensures { result ≡ [] }
    {
        Buffers {
            lists: Vec::new(alloc),
        }
    }

    /// One list more, at the end.
    pub fn push(&mut self, cells: Vec<i64>) -> Result<(), AllocError>
        ensures ok { OnOk result (self.new ≡ self.old ++ cells.items ∷ []) }
        ensures err { OnErr result (self.new ≡ self.old) }
    {
        self.lists.push(cells)?;
        Ok(())
    }

    /// How many lists there are.
    pub fn count(&self) -> usize
        ensures { result ≡ length self.now }
    {
        self.lists.len()
    }

    /// The cells of the list with this number.
    pub fn list(&self, b: usize) -> &[i64]
        requires { b < length self.now }
        ensures { result.now ≡ slice_index_or self.now b [] }
    {
        &self.lists[b]
    }
}

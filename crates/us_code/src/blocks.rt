//! Blocks, made a statement at a time.

ghost use Rattle.std.specs.Prelude.{◌≡◌, IfOk, OnOk, OnErr};
ghost use Rattle.us_code.specs.Plain.{plain_list, tree_of, alone, ◌+++◌};
ghost use Rattle.us_code.specs.Plain as plain;

use crate::program::{Block, Stmt};
use sqlite_items::Items;
use std::alloc::{AllocError, Global};

impl Block {
    /// A block without statements.
    #[tactic(auto, using(crate::proofs::Trees::alones))]
    pub fn new(alloc: Global) -> Block
        ensures { tree_of result ≡ plain.End }
    {
        Block {
            stmts: Items::new(alloc),
        }
    }

    /// A block of one statement.
    pub fn of(alloc: Global, stmt: Stmt) -> Result<Block, AllocError>
        ensures { IfOk result (λ b. tree_of b ≡ alone stmt) }
    {
        let mut block = Block::new(alloc);
        block.push(stmt)?;
        Ok(block)
    }

    /// Puts a statement behind the block's own. Without memory the block stays as it was.
    #[tactic(auto, using(crate::proofs::Trees::alones))]
    pub fn push(&mut self, stmt: Stmt) -> Result<(), AllocError>
        ensures ok { OnOk result (tree_of self.new ≡ tree_of self.old +++ alone stmt) }
        ensures err { OnErr result (tree_of self.new ≡ tree_of self.old) }
    {
        self.stmts.push(stmt)
    }

    /// Puts the statements of another block behind the block's own.
    #[tactic(auto, using(crate::proofs::Trees::alones))]
    pub fn append(&mut self, more: Block) -> Result<(), AllocError>
        ensures { OnOk result (tree_of self.new ≡ tree_of self.old +++ tree_of more) }
    {
        let Block { stmts } = more;
        self.stmts.append(stmts)
    }

    /// The statements, in order.
    #[tactic(auto, using(crate::proofs::Trees::alones))]
    pub fn as_slice(&self) -> &[Stmt]
        ensures { tree_of self.now ≡ plain_list result.now }
    {
        self.stmts.as_slice()
    }
}

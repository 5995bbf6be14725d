//! What is visible at a place of a program's text, by name.

ghost use Rattle.std.specs.Prelude.{◌≡◌, OnOk, nat_lt};
ghost use Rattle.us_code.specs.Typing.{before, with_reg, with_buf, with_form, without_regs};
ghost use Rattle.us_bounds.specs.Seen.{context_of, seen_reg, seen_buf, seen_form, plain_form, without_reg};

use std::alloc::{AllocError, Global};
use std::collections::BTreeMap;
use us_code::{CellKind, Dim, Make};

/// A visible register: whether `put` may change it, and what it holds.
#[derive(Clone, Copy)]
pub struct Register {
    pub is_var: bool,
    pub kind: CellKind,
}

/// A visible new buffer: its length, and what its cells hold.
#[derive(Clone, Copy)]
pub struct Buffer {
    pub len: Dim,
    pub cell: CellKind,
}

/// How a visible dim was defined.
#[derive(Clone, Copy)]
pub enum DimForm {
    Of,
    Product(Dim, Dim),
    Successor(Dim),
}

/// The visible registers, new buffers and dims, by their numbers.
#[derive(Drop)]
pub struct Table {
    pub sources: u32,
    pub regs: BTreeMap<u32, Register>,
    pub bufs: BTreeMap<u32, Buffer>,
    pub dims: BTreeMap<u32, DimForm>,
}

impl Table {
    /// Nothing but the sources is visible.
    pub fn new(alloc: Global, sources: u32) -> Table
        ensures { context_of result ≡ before sources }
    {
        Table {
            sources,
            regs: BTreeMap::new(alloc),
            bufs: BTreeMap::new(alloc),
            dims: BTreeMap::new(alloc),
        }
    }

    /// Whether there is a source of this number.
    #[tactic(auto, unfolding(crate::specs::Seen::context_of))]
    pub fn has_source(&self, source: u32) -> bool
        ensures { result ≡ nat_lt source (context_of self.now).sources }
    {
        source < self.sources
    }

    /// The register, where it is visible.
    #[tactic(auto, unfolding(crate::specs::Seen::context_of))]
    pub fn reg(&self, reg: u32) -> Option<Register>
        ensures { seen_reg result ≡ (context_of self.now).regs reg }
    {
        self.regs.get(&reg).copied()
    }

    /// The new buffer, where it is visible.
    #[tactic(auto, unfolding(crate::specs::Seen::context_of))]
    pub fn buf(&self, buf: u32) -> Option<Buffer>
        ensures { seen_buf result ≡ (context_of self.now).bufs buf }
    {
        self.bufs.get(&buf).copied()
    }

    /// How the dim was defined, where it is visible.
    #[tactic(auto, unfolding(crate::specs::Seen::context_of))]
    pub fn form(&self, dim: u32) -> Option<DimForm>
        ensures { seen_form result ≡ (context_of self.now).dims dim }
    {
        self.dims.get(&dim).copied()
    }

    /// Makes a register visible.
    pub fn add_reg(&mut self, reg: u32, is_var: bool, kind: CellKind) -> Result<(), AllocError>
        ensures { OnOk result (context_of self.new ≡ with_reg (context_of self.old) reg is_var kind) }
    {
        self.regs.insert(reg, Register { is_var, kind })?;
        Ok(())
    }

    /// Takes a register away.
    pub fn remove_reg(&mut self, reg: u32)
        ensures { context_of self.new ≡ without_reg (context_of self.old) reg }
    {
        self.regs.remove(&reg);
    }

    /// Takes all registers away.
    pub fn clear_regs(&mut self)
        ensures { context_of self.new ≡ without_regs (context_of self.old) }
    {
        self.regs.clear();
    }

    /// Makes a new buffer visible.
    pub fn add_buf(&mut self, make: Make) -> Result<(), AllocError>
        ensures { OnOk result (context_of self.new ≡ with_buf (context_of self.old) make) }
    {
        let buffer = Buffer {
            len: make.len,
            cell: make.cell,
        };
        self.bufs.insert(make.buf, buffer)?;
        Ok(())
    }

    /// Makes a dim visible.
    pub fn add_dim(&mut self, dim: u32, form: DimForm) -> Result<(), AllocError>
        ensures { OnOk result (context_of self.new ≡ with_form (context_of self.old) dim (plain_form form)) }
    {
        self.dims.insert(dim, form)?;
        Ok(())
    }
}

//! Numbers by name.
ghost use Rattle.std.specs.Prelude.{◌≡◌, IfOk, OnOk, ℕ, pos};
ghost use Rattle.us_code.specs.Run.{put};
ghost use Rattle.us_machine.specs.Tables.{held, regs_of};

use std::alloc::{AllocError, Global};
use std::collections::BTreeMap;

/// A number for each name, 0 where none was set. The names below a bound have places in a table, the others stand in a
/// map.
#[derive(Drop)]
pub struct Names {
    low: Vec<u64>,
    high: BTreeMap<u32, u64>,
}

impl Names {
    /// No name has a number. The names below the bound have places.
    pub fn new(alloc: Global, bound: usize) -> Result<Names, AllocError>
        ensures { IfOk result (λ t. held t ≡ (λ _. 0)) }
    {
        Ok(Names {
            low: vec![in alloc; 0u64; bound]?,
            high: BTreeMap::new(alloc),
        })
    }

    /// The number of the name.
    #[inline(always)]
    pub fn get(&self, name: u32) -> u64
        ensures { result ≡ held self.now name }
    {
        let at = name as usize;
        if at < self.low.len() {
            self.low[at]
        } else {
            self.high.get(&name).copied().unwrap_or(0)
        }
    }

    /// Sets the number of the name. It takes memory only for a name that has no place and no number.
    #[inline(always)]
    pub fn set(&mut self, name: u32, number: u64) -> Result<(), AllocError>
        ensures { OnOk result (held self.new ≡ put (held self.old) name number) }
    {
        let at = name as usize;
        if at < self.low.len() {
            self.low[at] = number;
        } else {
            self.high.insert(name, number)?;
        }
        Ok(())
    }
}

/// A signed number for each register, 0 where none was set.
#[derive(Drop)]
pub struct Registers {
    names: Names,
}

impl Registers {
    /// All registers are 0. Those below the bound have places.
    pub fn new(alloc: Global, bound: usize) -> Result<Registers, AllocError>
        ensures { IfOk result (λ r. regs_of r ≡ (λ _. pos 0)) }
    {
        Ok(Registers {
            names: Names::new(alloc, bound)?,
        })
    }

    /// What the register holds.
    #[inline(always)]
    pub fn get(&self, reg: u32) -> i64
        ensures { result ≡ regs_of self.now reg }
    {
        self.names.get(reg).cast_signed()
    }

    /// Sets the register. It takes memory only where the register has no place and was not set before.
    #[inline(always)]
    pub fn set(&mut self, reg: u32, value: i64) -> Result<(), AllocError>
        ensures { OnOk result (regs_of self.new ≡ put (regs_of self.old) reg value) }
    {
        self.names.set(reg, value.cast_unsigned())
    }
}

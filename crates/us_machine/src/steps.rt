//! The statements that hold no block.
ghost use Rattle.std.specs.Prelude.{◌≡◌, ◌+◌, ℕ, ℤ, pos, OnOk, IfErr};
ghost use Rattle.us_code.specs.Plain.{term_tree};
ghost use Rattle.us_code.specs.Plain as plain;
ghost use Rattle.us_code.specs.Run.{exec};
ghost use Rattle.us_code.specs.Run as run;
ghost use Rattle.us_code.specs.Typing.{Context};
ghost use Rattle.us_machine.specs.declared.stop.RunStop.TheVariants.{Memory};
ghost use Rattle.us_machine.specs.Tables.{env_of, regs_of, IsEvaluable};
ghost use Rattle.us_machine.specs.Walks.{Stands, Ready, state_of};

use crate::names::Registers;
use crate::stop::RunStop;
use crate::tables::Tables;
use crate::terms::eval;
use us_code::{Buf, Term};
use us_matrix::Buffers;
use us_raw::Region;

/// The number as a place, if it is one below the bound.
#[inline(always)]
pub fn place(number: i64, bound: u64) -> Option<u64>
    ensures { result ≡ run.place number bound }
{
    if number < 0 {
        return None;
    }
    let at = number.cast_unsigned();
    if at < bound { Some(at) } else { None }
}

/// Whether the numbers are equal, or whether the left one is less.
#[inline(always)]
pub fn test(equal: bool, left: i64, right: i64) -> bool
    ensures { result ≡ run.test equal left right }
{
    if equal { left == right } else { left < right }
}

/// A register gets the value of a term.
#[inline(always)]
pub fn assign(
    reg: u32,
    value: &Term,
    tables: &Tables,
    source: &Buffers,
    regs: &mut Registers,
) -> Result<(), RunStop>
    requires { IsEvaluable tables.now source.now (regs_of regs.old) (term_tree value.now) }
    ensures ok { OnOk result (regs_of regs.new
        ≡ run.put (regs_of regs.old) reg (run.value (env_of tables.now source.now) (regs_of regs.old) (term_tree value.now))) }
    ensures memory { IfErr result (λ e. e ≡ Memory) }
{
    let value = eval(value, tables, source, regs);
    regs.set(reg, value)?;
    Ok(())
}

/// A register gets a cell.
#[inline(always)]
pub fn load(
    reg: u32,
    buf: Buf,
    at: &Term,
    tables: &Tables,
    source: &Buffers,
    regs: &mut Registers,
    region: &Region,
) -> Result<(), RunStop>
    requires { (g : Context) × Ready tables.now source.now region.now (regs_of regs.old) g (plain.Load reg buf (term_tree at.now) plain.End) }
    ensures ok { OnOk result ((n : ℕ)
        → exec (env_of tables.now source.now) (plain.Load reg buf (term_tree at.now) plain.End) (state_of tables.now region.now (regs_of regs.old) n)
        ≡ state_of tables.now region.now (regs_of regs.new) (n + 1)) }
    ensures memory { IfErr result (λ e. e ≡ Memory) }
{
    let at = eval(at, tables, source, regs).cast_unsigned();
    let cell = region.get(tables.segment(buf), at);
    regs.set(reg, cell)?;
    Ok(())
}

/// A cell gets the value of a term.
#[inline(always)]
pub fn store(
    buf: Buf,
    at: &Term,
    value: &Term,
    tables: &Tables,
    source: &Buffers,
    regs: &Registers,
    region: &mut Region,
)
    requires { (g : Context) × Ready tables.now source.now region.old (regs_of regs.now) g (plain.Set buf (term_tree at.now) (term_tree value.now) plain.End) }
    ensures runs { (n : ℕ)
        → exec (env_of tables.now source.now) (plain.Set buf (term_tree at.now) (term_tree value.now) plain.End)
        (state_of tables.now region.old (regs_of regs.now) n)
        ≡ state_of tables.now region.new (regs_of regs.now) (n + 1) }
    ensures stands { Stands tables.now source.now region.new }
{
    let at = eval(at, tables, source, regs).cast_unsigned();
    let value = eval(value, tables, source, regs);
    region.set(tables.segment(buf), at, value);
}

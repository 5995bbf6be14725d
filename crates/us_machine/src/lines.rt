//! The dim lines of a phase.
ghost use Rattle.std.specs.Prelude.{◌≡◌, ◌<◌, ◌^◌, ◌∷◌, [], OnOk, map};
ghost use Rattle.us_code.specs.Plain.{line_tree};
ghost use Rattle.us_code.specs.Run.{put};
ghost use Rattle.us_code.specs.Runs as runs;
ghost use Rattle.us_machine.specs.Lines.{IsReadable, line_dim, line_value, line_factor};
ghost use Rattle.us_machine.specs.Phases.{CanName, Names};
ghost use Rattle.us_machine.specs.Tables.{env_of, held, regs_of};

use crate::makes::LARGEST;
use crate::names::Registers;
use crate::stop::RunStop;
use crate::tables::Tables;
use crate::terms::eval;
use std::alloc::AllocError;
use us_code::DimLine;
use us_matrix::Buffers;

impl Tables {
    /// A dim gets its value, and the right factor where it is a product.
    fn name_dim(&mut self, dim: u32, value: u64, factor: u64) -> Result<(), AllocError>
        ensures dims { OnOk result ((held self.new.dims ≡ put (held self.old.dims) dim value)
            × (held self.new.factors ≡ put (held self.old.factors) dim factor)) }
        ensures plan { (self.new.plan ≡ self.old.plan) × (self.new.segs ≡ self.old.segs) × (self.new.budget ≡ self.old.budget) }
    {
        self.dims.set(dim, value)?;
        self.factors.set(dim, factor)?;
        Ok(())
    }
}

/// What a dim line says: the dim, its value, and the right factor where it is a product.
struct Named {
    dim: u32,
    value: u128,
    factor: u64,
}

/// What a dim line says.
fn read_line(line: &DimLine, source: &Buffers, regs: &Registers, tables: &Tables) -> Named
    requires { IsReadable tables.now source.now (regs_of regs.now) (line_tree line.now) }
    ensures dim { result.dim ≡ line_dim (line_tree line.now) }
    ensures value { result.value ≡ line_value (env_of tables.now source.now) (regs_of regs.now) (line_tree line.now) }
    ensures factor { result.factor ≡ line_factor (env_of tables.now source.now) (line_tree line.now) }
    ensures small { result.factor < 2 ^ 63 }
{
    match line {
        DimLine::Of { dim, value } => Named {
            dim: *dim,
            value: u128::from(whole(eval(value, tables, source, regs))),
            factor: 0,
        },
        DimLine::Product { dim, left, right } => {
            let factor = tables.size(*right, source);
            let left = tables.size(*left, source);
            Named {
                dim: *dim,
                value: u128::from(left) * u128::from(factor),
                factor,
            }
        }
        DimLine::Next { dim, of } => Named {
            dim: *dim,
            value: u128::from(tables.size(*of, source)) + 1,
            factor: 0,
        },
    }
}

/// The number, or 0 where it is negative.
fn whole(number: i64) -> u64
    ensures { result ≡ runs.whole number }
{
    if number < 0 {
        return 0;
    }
    number.cast_unsigned()
}

/// A dim gets its value.
fn run_line(
    line: &DimLine,
    source: &Buffers,
    regs: &Registers,
    tables: &mut Tables,
    steps: &mut u64,
) -> Result<(), RunStop>
    requires { CanName tables.old source.now steps.old (regs_of regs.now) (line_tree line.now ∷ []) }
    ensures names { Names tables.old tables.new source.now result steps.old steps.new (regs_of regs.now) (line_tree line.now ∷ []) }
    ensures budget { tables.new.budget ≡ tables.old.budget }
    ensures plan { tables.new.plan ≡ tables.old.plan }
{
    tables.budget.charge(steps, 1)?;
    let Named { dim, value, factor } = read_line(line, source, regs, tables);
    if u128::from(LARGEST) < value {
        return Err(RunStop::TooLarge);
    }
    tables.name_dim(dim, value as u64, factor)?;
    Ok(())
}

/// Dims get their values.
pub fn run_lines(
    lines: &[DimLine],
    source: &Buffers,
    regs: &Registers,
    tables: &mut Tables,
    steps: &mut u64,
) -> Result<(), RunStop>
    requires { CanName tables.old source.now steps.old (regs_of regs.now) (map line_tree lines.now) }
    ensures names { Names tables.old tables.new source.now result steps.old steps.new (regs_of regs.now) (map line_tree lines.now) }
    ensures budget { tables.new.budget ≡ tables.old.budget }
    ensures plan { tables.new.plan ≡ tables.old.plan }
{
    for line in lines {
        run_line(line, source, regs, tables, steps)?;
    }
    Ok(())
}

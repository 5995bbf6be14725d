//! The `new` lines of a phase.
ghost use Rattle.std.specs.Prelude.{◌≡◌, ◌+◌, ◌∷◌, ◌++◌, ◌≤◌, [], ℤ, OnOk, length};
ghost use Rattle.us_code.specs.Run.{put};
ghost use Rattle.us_code_laws.specs.Fits.{InKind};
ghost use Rattle.us_raw.specs.Widths.{Holds};
ghost use Rattle.us_machine.specs.Phases.{CanMake, Makes};
ghost use Rattle.us_machine.specs.Tables.{env_of, held, IsSizedCell};

use crate::stop::RunStop;
use crate::tables::Tables;
use std::alloc::AllocError;
use us_code::{CellKind, Make};
use us_matrix::Buffers;
use us_raw::{Segment, Width};

/// No length and no dim is above this.
pub const LARGEST: u64 = 67108865;

impl Tables {
    /// The least width that holds what the cells hold; words have the greatest.
    fn width(&self, cell: CellKind, source: &Buffers) -> Width
        requires { IsSizedCell self.now source.now cell }
        ensures { (v : ℤ) → InKind (env_of self.now source.now) cell v → Holds result v }
    {
        match cell {
            CellKind::Word => Width::W8,
            CellKind::Below(below) => Width::for_below(self.size(below, source)),
        }
    }

    /// A list more for the region, which is this buffer.
    fn add_list(&mut self, buf: u32, segment: Segment) -> Result<(), AllocError>
        ensures plan { OnOk result (self.new.plan.items ≡ self.old.plan.items ++ segment ∷ []) }
        ensures segs { OnOk result (held self.new.segs ≡ put (held self.old.segs) buf (length self.old.plan.items)) }
        ensures dims { (self.new.dims ≡ self.old.dims) × (self.new.factors ≡ self.old.factors) × (self.new.budget ≡ self.old.budget) }
    {
        let number = self.plan.len() as u64;
        self.segs.set(buf, number)?;
        self.plan.push(segment)?;
        Ok(())
    }
}

/// Plans the list of a `new` line. The region is made later.
fn make_one(
    make: Make,
    source: &Buffers,
    tables: &mut Tables,
    steps: &mut u64,
) -> Result<(), RunStop>
    requires { CanMake tables.old source.now steps.old (make ∷ []) }
    ensures makes { Makes tables.old tables.new source.now result steps.old steps.new (make ∷ []) }
    ensures budget { tables.new.budget ≡ tables.old.budget }
    ensures plan { OnOk result (length tables.new.plan.items ≡ length tables.old.plan.items + 1) }
{
    tables.budget.charge(steps, 1)?;
    let len = tables.size(make.len, source);
    if LARGEST < len {
        return Err(RunStop::TooLarge);
    }
    let width = tables.width(make.cell, source);
    tables.add_list(make.buf, Segment { len, width })?;
    Ok(())
}

/// Plans the lists of `new` lines.
pub fn run_makes(
    makes: &[Make],
    source: &Buffers,
    tables: &mut Tables,
    steps: &mut u64,
) -> Result<(), RunStop>
    requires { CanMake tables.old source.now steps.old makes.now }
    ensures makes { Makes tables.old tables.new source.now result steps.old steps.new makes.now }
    ensures budget { tables.new.budget ≡ tables.old.budget }
    ensures plan { OnOk result (length tables.new.plan.items ≡ length tables.old.plan.items + length makes.now) }
{
    for make in makes {
        make_one(*make, source, tables, steps)?;
    }
    Ok(())
}

//! Listings with a unit of a dense product behind all others.
ghost use Rattle.std.specs.Prelude.{List, OnOk};
ghost use Rattle.us_code.specs.Limits.{KeepsLimits};
ghost use Rattle.us_code.specs.Plain.{program_tree};
ghost use Rattle.us_dense_unit.specs.Listing.{DenseListingsReadBack, DenseReadOnce, DenseUnitReadOnce, IsDenseListing};
ghost use Rattle.us_unit.specs.Listing.{IsListing};
ghost use Rattle.us_unit.specs.Units.{PlainUnit};

use crate::printing::print_dense_unit;
use std::alloc::{AllocError, Global};
use us_code::Program;
use us_unit::program_is_named;

/// Adds the canonical text of a unit of a dense product, with so many rows and columns, behind a listing.
pub fn push_dense_unit(
    alloc: Global,
    listing: &mut Vec<u8>,
    rows: u32,
    cols: u32,
    program: &Program,
) -> Result<(), AllocError>
    requires limits { KeepsLimits (program_tree program.now) }
    ensures { OnOk result ((us : List PlainUnit) → IsListing us listing.old.items
        → IsDenseListing us (record { rows = rows; cols = cols; program = program_tree program.now }) listing.new.items) }
{
    program_is_named(program);
    let unit = print_dense_unit(alloc, rows, cols, program)?;
    listing.extend_from_slice(&unit)
}

/// A listing with a unit of a dense product behind all others is read as its units, each from where the one before it
/// ends, and last as that unit. No bytes are read so in two ways, and none as two units of dense products.
pub fn dense_listings_read_back()
    ensures back { DenseListingsReadBack }
    ensures once { DenseReadOnce }
    ensures unit_once { DenseUnitReadOnce }
{}

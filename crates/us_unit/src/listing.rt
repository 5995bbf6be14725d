//! Listings: the canonical texts of units, one after the other.
ghost use Rattle.std.specs.Prelude.{◌≡◌, ◌∷◌, [], ◌++◌, List, OnOk};
ghost use Rattle.us_code.specs.Limits.{KeepsLimits};
ghost use Rattle.us_code.specs.Plain.{program_tree};
ghost use Rattle.us_decl.specs.Declares.{IsValid};
ghost use Rattle.us_decl.specs.Views.{decl_view};
ghost use Rattle.us_unit.specs.Listing.{IsListing, ListingsReadBack, ReadOnce};
ghost use Rattle.us_unit.specs.Units.{PlainUnit};

use crate::names::program_is_named;
use crate::printing::print_unit;
use std::alloc::{AllocError, Global};
use us_code::Program;
use us_decl::Decl;

/// Adds the canonical text of a unit behind a listing.
pub fn push_unit(
    alloc: Global,
    listing: &mut Vec<u8>,
    target: &Decl,
    program: &Program,
) -> Result<(), AllocError>
    requires valid { IsValid (decl_view target.now) }
    requires limits { KeepsLimits (program_tree program.now) }
    ensures { OnOk result ((us : List PlainUnit) → IsListing us listing.old.items
        → IsListing (us ++ (record { target = decl_view target.now; program = program_tree program.now } ∷ [])) listing.new.items) }
{
    program_is_named(program);
    let unit = print_unit(alloc, target, program)?;
    listing.extend_from_slice(&unit)
}

/// A listing is read as its units, each from where the one before it ends, and no bytes are read as two lists of units.
pub fn listings_read_back()
    ensures back { ListingsReadBack }
    ensures once { ReadOnce }
{}

//! The new buffers of packs, and the dims of their cells.

ghost use Rattle.std.specs.Prelude.{◌≡◌, ◌<◌, ◌^◌, length, IfOk};
ghost use Rattle.us_code.specs.Plain.{line_tree};
ghost use Rattle.us_gen_packs.specs.Making as making;
ghost use Rattle.us_gen_packs.specs.Packs.{pack_tree, pack_trees, HavePlaces};

use crate::packs::PackWriter;
use std::alloc::{AllocError, Global};
use us_code::{CellKind, Dim, DimLine, Make, Makes};

/// The new buffers of the packs, in order. It fails only for want of memory.
pub fn new_packs(alloc: Global, packs: &[PackWriter]) -> Result<Makes, AllocError>
    requires { HavePlaces packs.now }
    ensures { IfOk result (λ ms. ms ≡ making.pack_makes (pack_trees packs.now)) }
{
    match packs {
        [] => Ok(Makes::new(alloc)),
        [pack, rest @ ..] => {
            let cells = Make {
                buf: pack.first,
                len: Dim::Name(pack.cells),
                cell: CellKind::Word,
            };
            let mut made = Makes::from_slice(alloc, &[cells])?;
            made.append(new_packs(alloc, rest)?)?;
            Ok(made)
        }
    }
}

/// The dim of a pack's cells: its positions times its columns.
pub fn pack_line(pack: &PackWriter) -> DimLine
    requires { length pack.now.columns < 2 ^ 32 }
    ensures { line_tree result ≡ making.pack_line (pack_tree pack.now) }
{
    DimLine::Product {
        dim: pack.cells,
        left: pack.length,
        right: Dim::Number(pack.columns.len() as u64),
    }
}

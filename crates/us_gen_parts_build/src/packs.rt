//! The packs of a part, as loops take them.

ghost use Rattle.std.specs.Prelude.{◌≡◌, ◌+◌, ◌<◌, ◌≤◌, ◌^◌, All, IfOk, length, map};
ghost use Rattle.us_judge.specs.Views.{column_of};
ghost use Rattle.us_gen_parts_build.specs.Parts as parts;

use std::alloc::{AllocError, Global};
use us_decl::{Column, Pack};
use us_gen_pack_building::PackRun;

/// The number of a column, where there are so many levels.
fn column_number(column: Column, levels: u32) -> u32
    ensures { result ≡ parts.column_number levels (column_of column) }
{
    match column {
        Column::Level(level) => level,
        Column::Val => levels,
    }
}

/// The columns of a pack from its first on, as many as it has.
fn run_of(columns: &[Column], levels: u32) -> PackRun
    requires { (parts.run_of levels (map column_of columns.now)).end < 2 ^ 32 }
    ensures { result ≡ parts.run_of levels (map column_of columns.now) }
{
    match columns {
        [] => PackRun { first: 0, end: 0 },
        [column, ..] => {
            let first = column_number(*column, levels);
            let count = columns.len() as u32;
            PackRun {
                first,
                end: first + count,
            }
        }
    }
}

/// The columns of the packs of a part with so many levels.
pub(crate) fn runs_of(
    alloc: Global,
    packs: &[Pack],
    levels: u32,
) -> Result<Vec<PackRun>, AllocError>
    requires { All (λ pack. (parts.run_of levels (map column_of pack)).end < 2 ^ 32) packs.now }
    ensures { IfOk result (λ v. v.items ≡ map (parts.run_of levels) (map (map column_of) packs.now)) }
{
    match packs {
        [] => Ok(Vec::new(alloc)),
        [pack, rest @ ..] => {
            let mut runs = Vec::new(alloc);
            runs.push(run_of(pack.as_slice(), levels))?;
            let mut others = runs_of(alloc, rest, levels)?;
            runs.append(&mut others)?;
            Ok(runs)
        }
    }
}

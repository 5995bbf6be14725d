//! The places of columns.
ghost use Rattle.std.specs.Prelude.{◌≡◌, ◌+◌, ◌<◌, ◌≤◌, ◌^◌, false, length};
ghost use Rattle.us_format.specs.Declaration.{LevelColumn};
ghost use Rattle.us_format.specs.Packs.{CellsOf, is_packed};
ghost use Rattle.us_format.specs.Reading.{own_place, pack_place};
ghost use Rattle.us_judge.specs.Views.{column_of, plain_part};
ghost use Rattle.us_gen_places.specs.Places as places;

use crate::packs::{column_in, pack_with};
use us_code::Dim;
use us_decl::{Column, Part};
use us_gen_places::PartStart;
use us_gen_walk::Column as Place;

/// The place of a column, which is in a pack or in a source of its own, that of buffer `own` of the part. The packs have
/// the buffers from `first_pack` on.
pub(crate) fn place_of(
    part: &Part,
    start: PartStart,
    first_pack: usize,
    own: usize,
    column: Column,
) -> Place
    requires base { start.source < 2 ^ 31 }
    requires first { first_pack ≡ pack_place (plain_part part.now) 0 }
    requires room { first_pack + length part.now.packs < 2 ^ 16 }
    requires own_few { own < 2 ^ 16 }
    requires own { is_packed (plain_part part.now) (CellsOf (column_of column)) ≡ false → own ≡ own_place (plain_part part.now) (CellsOf (column_of column)) }
    ensures { result ≡ places.place_of start (plain_part part.now) (column_of column) }
{
    match pack_with(part, column) {
        Some(pack) => {
            let columns = &part.packs.as_slice()[pack];
            Place::Packed {
                source: start.source + (first_pack + pack) as u32,
                width: columns.len() as u64,
                digit: column_in(columns, column) as u64,
            }
        }
        None => Place::Own {
            source: start.source + own as u32,
        },
    }
}

/// How many nodes a level has whose coordinates are there: where they are in a pack, a dim of its own.
pub(crate) fn nodes_of(part: &Part, start: PartStart, level: u32, crd: Place) -> Dim
    requires base { start.dim < 2 ^ 31 }
    requires level { level ≤ 16 }
    requires there { crd ≡ places.place_of start (plain_part part.now) (LevelColumn level) }
    ensures { result ≡ places.nodes_of start (plain_part part.now) level }
{
    match crd {
        Place::Own { source } => Dim::Len(source),
        Place::Packed {
            source: _,
            width: _,
            digit: _,
        } => Dim::Name(start.dim + 16 + 2 * level),
    }
}

//! The rule on packs.
ghost use Rattle.std.specs.Prelude.{◌≡◌, ◌<◌, ◌≤◌, ◌&&◌, [], map, length, not, nat_lt};
ghost use Rattle.std.specs.List.{list_any, list_all};
ghost use Rattle.us_format.specs.Declaration.{same_column};
ghost use Rattle.us_format.specs.Kinds.{kind};
ghost use Rattle.us_judge.specs.Acceptance.{first_failing, first_pack, is_slot, is_full, is_run_from, is_run, is_apart, is_lawful_pack, bad_pack};
ghost use Rattle.us_judge.specs.Views.{column_of, plain_part};
ghost use Rattle.us_judge.specs.Kinds.{kinds_of};
ghost use Rattle.us_judge.specs.Short.{IsShort};

use us_decl::{Column, Pack, Part};
use us_format::Kind;

fn is_same(a: Column, b: Column) -> bool
    ensures { result ≡ same_column (column_of a) (column_of b) }
{
    match (a, b) {
        (Column::Level(k), Column::Level(l)) => k == l,
        (Column::Val, Column::Val) => true,
        _ => false,
    }
}

/// Whether a column is in a pack.
fn is_in(column: Column, pack: &Pack) -> bool
    ensures { result ≡ list_any (λ b. same_column (column_of column) (column_of b)) pack.now }
{
    pack.as_slice().iter().any(|b| is_same(column, *b))
}

/// Whether a column is in one of the packs.
pub fn is_in_some(column: Column, packs: &[Pack]) -> bool
    ensures { result ≡ list_any (λ pack. list_any (λ b. same_column (column_of column) (column_of b)) pack) packs.now }
{
    packs.iter().any(|pack| is_in(column, pack))
}

fn none_is_in_some(packs: &[Pack], pack: &Pack) -> bool
    ensures { result ≡ list_all (λ c. not (list_any (λ pack. list_any (λ b. same_column (column_of c) (column_of b)) pack) packs.now)) pack.now }
{
    pack.as_slice()
        .iter()
        .all(|column| !is_in_some(*column, packs))
}

/// Whether no column of a pack is in one of the packs.
fn is_apart(packs: &[Pack], pack: &Pack) -> bool
    ensures { result ≡ is_apart (map (map column_of) packs.now) (map column_of pack.now) }
{
    none_is_in_some(packs, pack)
}

fn is_slot(kind: Kind) -> bool
    ensures { result ≡ is_slot kind }
{
    matches!(kind, Kind::Slot)
}

fn is_full(kind: Kind) -> bool
    ensures { result ≡ is_full kind }
{
    matches!(kind, Kind::Full)
}

/// The kind of a level.
fn kind_at(part: &Part, kinds: &[Kind], level: usize) -> Kind
    requires kinds { kinds.now ≡ kinds_of (plain_part part.now) }
    requires level { level < length part.now.levels }
    ensures { result ≡ kind (plain_part part.now) level }
{
    let _ = part;
    kinds[level]
}

/// Whether a number is that of a slot level.
fn is_slot_level(part: &Part, kinds: &[Kind], level: usize) -> bool
    requires { kinds.now ≡ kinds_of (plain_part part.now) }
    ensures { result ≡ (nat_lt level (length (plain_part part.now).levels) && is_slot (kind (plain_part part.now) level)) }
{
    level < part.levels.len() && is_slot(kind_at(part, kinds, level))
}

/// Whether a number is that of a level that isn't full.
fn is_stored_level(part: &Part, kinds: &[Kind], level: usize) -> bool
    requires { kinds.now ≡ kinds_of (plain_part part.now) }
    ensures { result ≡ (nat_lt level (length (plain_part part.now).levels) && not (is_full (kind (plain_part part.now) level))) }
{
    level < part.levels.len() && !is_full(kind_at(part, kinds, level))
}

/// Whether columns are the slot levels from a level on, and perhaps the values behind the last level.
fn is_run_from(part: &Part, kinds: &[Kind], level: usize, columns: &[Column]) -> bool
    requires kinds { kinds.now ≡ kinds_of (plain_part part.now) }
    requires short { length part.now.levels ≤ 16 }
    ensures { result ≡ is_run_from (plain_part part.now) level (map column_of columns.now) }
{
    match columns {
        [] => true,
        [Column::Val, rest @ ..] => rest.is_empty() && level == part.levels.len(),
        [Column::Level(k), rest @ ..] => {
            *k as usize == level
                && is_slot_level(part, kinds, *k as usize)
                && is_run_from(part, kinds, level + 1, rest)
        }
    }
}

/// Whether columns are a level that isn't full, and what follows it.
fn is_run(part: &Part, kinds: &[Kind], columns: &[Column]) -> bool
    requires kinds { kinds.now ≡ kinds_of (plain_part part.now) }
    requires short { length part.now.levels ≤ 16 }
    ensures { result ≡ is_run (plain_part part.now) (map column_of columns.now) }
{
    match columns {
        [Column::Level(k), rest @ ..] => {
            is_stored_level(part, kinds, *k as usize)
                && is_run_from(part, kinds, *k as usize + 1, rest)
        }
        _ => false,
    }
}

/// Whether a pack is a run, and none of its columns is in one of the packs before it.
fn is_new_run(part: &Part, kinds: &[Kind], before: &[Pack], pack: &Pack) -> bool
    requires kinds { kinds.now ≡ kinds_of (plain_part part.now) }
    requires short { length part.now.levels ≤ 16 }
    ensures { result ≡ (is_run (plain_part part.now) (map column_of pack.now) && is_apart (map (map column_of) before.now) (map column_of pack.now)) }
{
    is_run(part, kinds, pack.as_slice()) && is_apart(before, pack)
}

/// Whether a pack is lawful behind other packs.
fn is_lawful_pack(part: &Part, kinds: &[Kind], before: &[Pack], pack: &Pack) -> bool
    requires kinds { kinds.now ≡ kinds_of (plain_part part.now) }
    requires short { length part.now.levels ≤ 16 }
    ensures { result ≡ is_lawful_pack (plain_part part.now) (map (map column_of) before.now) (map column_of pack.now) }
{
    pack.len() >= 2 && is_new_run(part, kinds, before, pack)
}

/// The place of the first pack.
fn first_pack(part: &Part) -> usize
    requires { IsShort (plain_part part.now) }
    ensures { result ≡ first_pack (plain_part part.now) }
{
    part.queries.len() + part.levels.len() + part.trim.len() + part.merge.len()
}

/// The first pack that is not lawful.
pub fn bad_pack(part: &Part, kinds: &[Kind]) -> Option<u32>
    requires kinds { kinds.now ≡ kinds_of (plain_part part.now) }
    requires short { IsShort (plain_part part.now) }
    ensures { result ≡ bad_pack (plain_part part.now) }
{
    let first = first_pack(part);
    let packs = part.packs.as_slice();
    for (k, pack) in packs.iter().enumerate() {
        if !is_lawful_pack(part, kinds, &packs[..k], pack) {
            return Some((first + k) as u32);
        }
    }
    None
}

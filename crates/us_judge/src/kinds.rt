//! The kinds of levels.
ghost use Rattle.std.specs.Prelude.{◌≡◌, ◌<◌, ◌&&◌, length, IfOk, if◌then◌else◌};
ghost use Rattle.std.specs.List.{list_any};
ghost use Rattle.us_expr.specs.Tree.{Tree, RowIndex, ColIndex};
ghost use Rattle.us_format.specs.Declaration.{query_of};
ghost use Rattle.us_format.specs.Known.{has, is_known};
ghost use Rattle.us_format.specs.Kinds.{before_loose, tells, kind};
ghost use Rattle.us_judge.specs.Views.{plain_part};
ghost use Rattle.us_judge.specs.Kinds.{kinds_of, knows_one};

use crate::rules::{contains, is_loose};
use sqlite_items::Items;
use std::alloc::{AllocError, Global};
use us_decl::Part;
use us_expr::{Expr, Query};
use us_format::Kind;
use us_known::{KnownSet, known};

/// The kinds of the levels of a part.
pub type Kinds = Items<Kind>;

/// Whether the level before is loose.
fn is_behind_loose(part: &Part, level: usize) -> bool
    ensures { result ≡ before_loose (plain_part part.now) level }
{
    level > 0 && is_loose(part, level - 1)
}

/// Whether a query is an enumerate whose variable and argument are known.
fn knows_query(set: &KnownSet, query: &Query) -> bool
    ensures { result ≡ knows_one set.now (query_of query.now) }
{
    match query {
        Query::Enumerate { var, arg } => set.has(&Expr::Var(*var)) && set.has(arg),
        _ => false,
    }
}

fn knows_some_query(set: &KnownSet, queries: &[Query]) -> bool
    ensures { result ≡ list_any (λ q. knows_one set.now (query_of q)) queries.now }
{
    queries.iter().any(|query| knows_query(set, query))
}

fn knows_indices(set: &KnownSet) -> bool
    ensures { result ≡ (has set.now RowIndex && has set.now ColIndex) }
{
    set.has(&Expr::I) && set.has(&Expr::J)
}

/// Whether the known set of the levels before tells the entry.
fn tells(part: &Part, level: usize, set: &KnownSet) -> bool
    requires { (e : Tree) → has set.now e ≡ is_known (plain_part part.now).levels (plain_part part.now).queries level e }
    ensures { result ≡ tells (plain_part part.now) level }
{
    knows_indices(set) || knows_some_query(set, part.queries.as_slice())
}

/// The kind of a loose level behind one that isn't loose.
fn loose_kind(alloc: Global, part: &Part, level: usize) -> Result<Kind, AllocError>
    requires { level < length part.now.levels }
    ensures { IfOk result (λ k. k ≡ (if tells (plain_part part.now) level then Kind.Slot else Kind.Listed)) }
{
    let set = known(
        alloc,
        part.levels.as_slice(),
        level,
        part.queries.as_slice(),
    )?;
    let kind = if tells(part, level, &set) {
        Kind::Slot
    } else {
        Kind::Listed
    };
    Ok(kind)
}

/// The kind of a level.
fn kind_of(alloc: Global, part: &Part, level: usize) -> Result<Kind, AllocError>
    requires { level < length part.now.levels }
    ensures { IfOk result (λ k. k ≡ kind (plain_part part.now) level) }
{
    if !contains(part.trim.as_slice(), level) {
        Ok(Kind::Full)
    } else if contains(part.merge.as_slice(), level) {
        Ok(Kind::Compressed)
    } else if is_behind_loose(part, level) {
        Ok(Kind::Slot)
    } else {
        loose_kind(alloc, part, level)
    }
}

/// The kinds of all levels of a part.
pub fn kinds_of(alloc: Global, part: &Part) -> Result<Kinds, AllocError>
    ensures { IfOk result (λ kinds. kinds ≡ kinds_of (plain_part part.now)) }
{
    let mut kinds = Kinds::new(alloc);
    for level in 0..part.levels.len() {
        kinds.push(kind_of(alloc, part, level)?)?;
    }
    Ok(kinds)
}

/// The same kinds.
pub fn copy_kinds(alloc: Global, lists: &[Kinds]) -> Result<Items<Kinds>, AllocError>
    ensures { IfOk result (λ copy. copy ≡ lists.now) }
{
    let mut copy = Items::new(alloc);
    for kinds in lists {
        copy.push(Kinds::from_slice(alloc, kinds.as_slice())?)?;
    }
    Ok(copy)
}

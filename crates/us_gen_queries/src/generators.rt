//! The generators.

ghost use Rattle.std.specs.Prelude.{◌≡◌, ◌+◌, ◌-◌, ◌*◌, ◌<◌, ◌≤◌, ◌^◌, All, IfOk, OnOk, OnErr, length, map};
ghost use Rattle.us_code.specs.Plain.{phase_tree};
ghost use Rattle.us_format.specs.Declaration.{query_of};
ghost use Rattle.us_format.specs.Program.{plain_shape};
ghost use Rattle.us_judge.specs.Format.{part_at};
ghost use Rattle.us_judge.specs.Views.{declaration_of};
ghost use Rattle.us_gen_counting.specs.Answers.{Answers};
ghost use Rattle.us_gen_counting.specs.Selected.{base, select_phases, IsSelected};
ghost use Rattle.us_gen_counting.specs.Rooms.{IsCountable};
ghost use Rattle.us_gen_queries.specs.Meaning.{CountsPart, SelectsPart, selection_room};
ghost use Rattle.us_gen_queries.specs.Plain.{bare};

use arrayvec::ArrayVec;
use sqlite_items::Items;
use std::alloc::{AllocError, Global};
use us_code::{Columns, Fresh, ListPiece, QueryPiece};
use us_decl::{Body, Head};
use us_gen_counting::{count_list, select_list};
use us_judge::Format;
use us_matrix::Shape;

/// The columns of the entries, without those of variables.
fn bare(columns: &Columns) -> Columns
    ensures { result ≡ bare columns.now }
{
    Columns {
        count: columns.count,
        i: columns.i,
        j: columns.j,
        v: columns.v,
        vars: ArrayVec::new(),
    }
}

/// The phases that count the queries of a part, counted from 1, over the columns of its entries, the columns with those of
/// its variables, and the buffers of its extents and then of its tables, each in the order of the queries. They have at
/// most 4096 items and take numbers from `fresh`, 64 for each query, which stays as it is where memory is wanting.
pub fn count_queries(
    alloc: Global,
    format: &Format,
    part: usize,
    shape: Shape,
    entries: &Columns,
    fresh: &mut Fresh,
) -> Result<QueryPiece, AllocError>
    requires from_one { 1 ≤ part }
    requires part { part ≤ length (declaration_of format.now).parts }
    requires room { fresh.old < 2 ^ 31 }
    ensures counts { IfOk result (λ p. CountsPart (plain_shape shape) (part_at (declaration_of format.now) (part - 1)).queries entries.now fresh.old
        (map phase_tree p.phases) p.columns p.buffers) }
    ensures columns { IfOk result (λ p. Answers (bare entries.now) (part_at (declaration_of format.now) (part - 1)).queries
        (part_at (declaration_of format.now) (part - 1)).names fresh.old p.columns) }
    ensures fresh { OnOk result (fresh.new ≡ fresh.old + 64 * length (part_at (declaration_of format.now) (part - 1)).queries) }
    ensures unchanged { OnErr result (fresh.new ≡ fresh.old) }
{
    let part = format.part(part);
    let queries = part.queries.as_slice();
    let next = fresh.next();
    let plain = bare(entries);
    let piece = count_list(alloc, shape, &plain, queries, part.names.len(), next)?;
    fresh.take(64 * queries.len() as u32);
    Ok(piece)
}

/// The phases that select the entries of a part, counted from 0, of a split from columns without variables.
fn select_split(
    alloc: Global,
    head: &Head,
    part: usize,
    shape: Shape,
    plain: &Columns,
    next: u32,
) -> Result<ListPiece, AllocError>
    requires countable { All IsCountable (map query_of head.now.queries) }
    requires queries { length head.now.queries ≤ 16 }
    requires conds { length head.now.conds ≤ 3 }
    requires room { next < 2 ^ 31 }
    ensures phases { IfOk result (λ p. map phase_tree p.phases
        ≡ select_phases (plain_shape shape) plain.now (map query_of head.now.queries) head.now.conds part p.columns next) }
    ensures columns { IfOk result (λ p. IsSelected p.columns (base (map query_of head.now.queries) next)) }
{
    let queries = head.queries.as_slice();
    let conds = head.conds.as_slice();
    select_list(alloc, shape, plain, queries, conds, part, next)
}

/// The phases that select the entries of a part, counted from 1, from the columns of all entries, and the columns that hold
/// them. An undivided format has no such phase, and its part has all entries. They have at most 4096 items and take numbers
/// from `fresh`, 64 and 64 for each query of the head, which stays as it is where memory is wanting.
pub fn select(
    alloc: Global,
    format: &Format,
    part: usize,
    shape: Shape,
    entries: &Columns,
    fresh: &mut Fresh,
) -> Result<ListPiece, AllocError>
    requires from_one { 1 ≤ part }
    requires part { part ≤ length (declaration_of format.now).parts }
    requires room { fresh.old < 2 ^ 31 }
    ensures selects { IfOk result (λ p.
        SelectsPart (plain_shape shape) (declaration_of format.now) (part - 1) entries.now fresh.old (map phase_tree p.phases) p.columns) }
    ensures fresh { OnOk result (fresh.new ≡ fresh.old + selection_room (declaration_of format.now)) }
    ensures unchanged { OnErr result (fresh.new ≡ fresh.old) }
{
    let plain = bare(entries);
    let decl = format.decl();
    match &decl.body {
        Body::One(_) => {
            fresh.take(64);
            Ok(ListPiece {
                phases: Items::new(alloc),
                columns: plain,
            })
        }
        Body::Split { head, parts: _ } => {
            let piece = select_split(alloc, head, part - 1, shape, &plain, fresh.next())?;
            fresh.take(64 * head.queries.len() as u32 + 64);
            Ok(piece)
        }
    }
}

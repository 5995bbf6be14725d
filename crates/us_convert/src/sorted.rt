//! The phases that build a format of one part without queries from entries in the order of its coordinates.

ghost use Rattle.std.specs.Prelude.{◌≡◌, ◌+◌, ◌<◌, ◌≤◌, ◌^◌, [], length, map, true, false, IfOk, OnOk, None};
ghost use Rattle.us_code.specs.Plain.{phase_tree};
ghost use Rattle.us_decl.specs.Declares.{IsValid};
ghost use Rattle.us_format.specs.Program.{plain_shape};
ghost use Rattle.us_judge.specs.Acceptance.{first_refusal};
ghost use Rattle.us_judge.specs.Format.{part_at};
ghost use Rattle.us_judge.specs.Views.{declaration_of};
ghost use Rattle.us_matrix.specs.Map.{IsSide};
ghost use Rattle.us_gen_queries.specs.Plain.{bare};
ghost use Rattle.us_right.specs.Piece.{MakesPart};
ghost use Rattle.us_convert.specs.Draft.{AddsPart, AddsSorted};
ghost use Rattle.us_convert.specs.Own.{AreBelow};

use crate::draft::Draft;
use arrayvec::ArrayVec;
use sqlite_items::Items;
use std::alloc::{AllocError, Global};
use us_code::{BuildPiece, Columns, Fresh, QueryPiece};
use us_gen_parts_build::build_sorted;
use us_judge::Format;
use us_matrix::Shape;

/// The columns of entries, where there is no query.
fn plain_query(alloc: Global, columns: &Columns) -> QueryPiece
    ensures columns { result.columns ≡ bare columns.now }
    ensures buffers { result.buffers ≡ [] }
{
    QueryPiece {
        phases: Items::new(alloc),
        columns: Columns {
            count: columns.count,
            i: columns.i,
            j: columns.j,
            v: columns.v,
            vars: ArrayVec::new(),
        },
        buffers: Items::new(alloc),
    }
}

/// The phases that build the only part from columns that hold all entries in the order of its coordinates.
fn sorted_piece(
    alloc: Global,
    to: &Format,
    shape: Shape,
    columns: &Columns,
    fresh: &mut Fresh,
) -> Result<BuildPiece, AllocError>
    requires one { length (declaration_of to.now).parts ≡ 1 }
    requires plain { (part_at (declaration_of to.now) 0).queries ≡ [] }
    requires rows { IsSide shape.rows }
    requires cols { IsSide shape.cols }
    requires valid { IsValid to.now }
    requires accepted { first_refusal (declaration_of to.now) ≡ None }
    requires low { AreBelow columns.now fresh.old }
    requires room { fresh.old + 131072 < 2 ^ 31 }
    ensures piece { IfOk result (λ p. MakesPart false (plain_shape shape) (declaration_of to.now) 0 columns.now
        fresh.old fresh.new (map phase_tree p.phases) p.buffers) }
    ensures higher { OnOk result (fresh.old ≤ fresh.new) }
    ensures near { OnOk result (fresh.new ≤ fresh.old + 4096) }
{
    let query = plain_query(alloc, columns);
    let built = build_sorted(alloc, to, 1, shape, &query, fresh)?;
    Ok(built)
}

/// Builds the only part behind what a draft has.
fn push_piece(alloc: Global, to: &Format, shape: Shape, draft: &mut Draft) -> Result<(), AllocError>
    requires one { length (declaration_of to.now).parts ≡ 1 }
    requires plain { (part_at (declaration_of to.now) 0).queries ≡ [] }
    requires rows { IsSide shape.rows }
    requires cols { IsSide shape.cols }
    requires valid { IsValid to.now }
    requires accepted { first_refusal (declaration_of to.now) ≡ None }
    requires low { AreBelow draft.old.columns draft.old.fresh }
    requires room { draft.old.fresh + 131072 < 2 ^ 31 }
    ensures { OnOk result (AddsPart false (plain_shape shape) (declaration_of to.now) 0 draft.old draft.new) }
{
    let BuildPiece { phases, buffers } = sorted_piece(
        alloc,
        to,
        shape,
        &draft.columns,
        &mut draft.fresh,
    )?;
    draft.phases.append(phases)?;
    draft.give.append(buffers)?;
    Ok(())
}

/// Builds the only part of a target.
pub(crate) fn push_sorted(
    alloc: Global,
    to: &Format,
    shape: Shape,
    draft: &mut Draft,
) -> Result<(), AllocError>
    requires one { length (declaration_of to.now).parts ≡ 1 }
    requires plain { (part_at (declaration_of to.now) 0).queries ≡ [] }
    requires rows { IsSide shape.rows }
    requires cols { IsSide shape.cols }
    requires valid { IsValid to.now }
    requires accepted { first_refusal (declaration_of to.now) ≡ None }
    requires low { AreBelow draft.old.columns draft.old.fresh }
    requires room { draft.old.fresh ≤ 65536 }
    ensures { OnOk result (AddsSorted (plain_shape shape) (declaration_of to.now) draft.old draft.new) }
{
    push_piece(alloc, to, shape, draft)?;
    Ok(())
}

//! The phases that build the parts of a target.

ghost use Rattle.std.specs.Prelude.{◌≡◌, ◌+◌, ◌-◌, ◌<◌, ◌≤◌, ◌^◌, ◌++◌, length, map, true, IfOk, OnOk, None};
ghost use Rattle.us_code.specs.Plain.{phase_tree};
ghost use Rattle.us_decl.specs.Declares.{IsValid};
ghost use Rattle.us_format.specs.Program.{plain_shape};
ghost use Rattle.us_judge.specs.Acceptance.{first_refusal};
ghost use Rattle.us_judge.specs.Format.{part_at};
ghost use Rattle.us_judge.specs.Views.{declaration_of};
ghost use Rattle.us_matrix.specs.Map.{IsSide};
ghost use Rattle.us_right.specs.Piece.{MakesPart};
ghost use Rattle.us_convert.specs.Draft.{AddsPart, AddsParts};
ghost use Rattle.us_convert.specs.Own.{AreBelow, BuildsOwn};

use crate::draft::Draft;
use std::alloc::{AllocError, Global};
use us_code::{BuildPiece, Columns, Fresh, Phases};
use us_gen_parts_build::build;
use us_gen_queries::{count_queries, select};
use us_judge::Format;
use us_matrix::Shape;

/// Phases that build, behind others.
fn behind(phases: Phases, built: BuildPiece) -> Result<BuildPiece, AllocError>
    ensures phases { IfOk result (λ p. p.phases ≡ phases ++ built.phases) }
    ensures buffers { IfOk result (λ p. p.buffers ≡ built.buffers) }
{
    let mut all = phases;
    let BuildPiece { phases, buffers } = built;
    all.append(phases)?;
    Ok(BuildPiece {
        phases: all,
        buffers,
    })
}

/// The phases that build a part, counted from 1, from columns that hold its entries.
fn own_piece(
    alloc: Global,
    to: &Format,
    part: usize,
    shape: Shape,
    columns: &Columns,
    fresh: &mut Fresh,
) -> Result<BuildPiece, AllocError>
    requires from_one { 1 ≤ part }
    requires part { part ≤ length (declaration_of to.now).parts }
    requires rows { IsSide shape.rows }
    requires cols { IsSide shape.cols }
    requires valid { IsValid to.now }
    requires low { AreBelow columns.now fresh.old }
    requires room { fresh.old + 65536 < 2 ^ 31 }
    ensures piece { IfOk result (λ p. BuildsOwn (plain_shape shape) (part_at (declaration_of to.now) (part - 1)) columns.now
        fresh.old fresh.new (map phase_tree p.phases) p.buffers) }
    ensures higher { OnOk result (fresh.old ≤ fresh.new) }
    ensures near { OnOk result (fresh.new ≤ fresh.old + 2048) }
{
    let query = count_queries(alloc, to, part, shape, columns, fresh)?;
    let built = build(alloc, to, part, shape, &query, fresh)?;
    behind(query.phases, built)
}

/// The phases that build a part, counted from 1, from columns that hold all entries.
fn part_piece(
    alloc: Global,
    to: &Format,
    part: usize,
    shape: Shape,
    columns: &Columns,
    fresh: &mut Fresh,
) -> Result<BuildPiece, AllocError>
    requires from_one { 1 ≤ part }
    requires part { part ≤ length (declaration_of to.now).parts }
    requires rows { IsSide shape.rows }
    requires cols { IsSide shape.cols }
    requires valid { IsValid to.now }
    requires accepted { first_refusal (declaration_of to.now) ≡ None }
    requires low { AreBelow columns.now fresh.old }
    requires room { fresh.old + 131072 < 2 ^ 31 }
    ensures piece { IfOk result (λ p. MakesPart true (plain_shape shape) (declaration_of to.now) (part - 1) columns.now
        fresh.old fresh.new (map phase_tree p.phases) p.buffers) }
    ensures higher { OnOk result (fresh.old ≤ fresh.new) }
    ensures near { OnOk result (fresh.new ≤ fresh.old + 4096) }
{
    let selected = select(alloc, to, part, shape, columns, fresh)?;
    let built = own_piece(alloc, to, part, shape, &selected.columns, fresh)?;
    behind(selected.phases, built)
}

/// Builds a part, counted from 1, behind what a draft has.
fn push_part(
    alloc: Global,
    to: &Format,
    part: usize,
    shape: Shape,
    draft: &mut Draft,
) -> Result<(), AllocError>
    requires from_one { 1 ≤ part }
    requires part { part ≤ length (declaration_of to.now).parts }
    requires rows { IsSide shape.rows }
    requires cols { IsSide shape.cols }
    requires valid { IsValid to.now }
    requires accepted { first_refusal (declaration_of to.now) ≡ None }
    requires low { AreBelow draft.old.columns draft.old.fresh }
    requires room { draft.old.fresh + 131072 < 2 ^ 31 }
    ensures { OnOk result (AddsPart true (plain_shape shape) (declaration_of to.now) (part - 1) draft.old draft.new) }
{
    let BuildPiece { phases, buffers } = part_piece(
        alloc,
        to,
        part,
        shape,
        &draft.columns,
        &mut draft.fresh,
    )?;
    draft.phases.append(phases)?;
    draft.give.append(buffers)?;
    Ok(())
}

/// Builds all parts of a target.
pub(crate) fn push_parts(
    alloc: Global,
    to: &Format,
    shape: Shape,
    draft: &mut Draft,
) -> Result<(), AllocError>
    requires rows { IsSide shape.rows }
    requires cols { IsSide shape.cols }
    requires valid { IsValid to.now }
    requires accepted { first_refusal (declaration_of to.now) ≡ None }
    requires low { AreBelow draft.old.columns draft.old.fresh }
    requires room { draft.old.fresh ≤ 65536 }
    ensures { OnOk result (AddsParts (plain_shape shape) (declaration_of to.now) (length (declaration_of to.now).parts) draft.old draft.new) }
{
    let count = to.parts();
    for part in 0..count {
        push_part(alloc, to, part + 1, shape, draft)?;
    }
    Ok(())
}

//! Programs from one format to another.

ghost use Rattle.std.specs.Prelude.{◌≡◌, ◌≤◌, Bool, true, false, IfOk, None};
ghost use Rattle.us_bounds.specs.Verdict.{IsVerified};
ghost use Rattle.us_code.specs.Limits.{KeepsLimits};
ghost use Rattle.us_code.specs.Plain.{program_tree};
ghost use Rattle.us_code.specs.Typing.{TypedProgram};
ghost use Rattle.us_decl.specs.Declares.{IsValid};
ghost use Rattle.us_format.specs.Declaration.{Declaration};
ghost use Rattle.us_format.specs.Program.{plain_shape};
ghost use Rattle.us_format.specs.Reading.{total_count};
ghost use Rattle.us_judge.specs.Acceptance.{first_refusal};
ghost use Rattle.us_judge.specs.Views.{declaration_of};
ghost use Rattle.us_matrix.specs.Map.{IsSide};
ghost use Rattle.us_limits.specs.Orders.{HaveNoOrder};
ghost use Rattle.us_right.specs.Right.{AreAlike, IsRight};
ghost use Rattle.us_convert.specs.Alike.{alike};
ghost use Rattle.us_convert.specs.Draft.{IsDraft};
ghost use Rattle.us_convert.specs.Own.{AreBelow};

use crate::alike::is_alike;
use crate::draft::Draft;
use crate::parts::push_parts;
use crate::sorted::push_sorted;
use sqlite_items::Items;
use std::alloc::{AllocError, Global};
use us_bounds::{Verified, verify};
use us_code::{Fresh, Program};
use us_gen_listing::unpack;
use us_judge::Format;
use us_matrix::Shape;

/// A draft that lists the entries of a source, and builds no part yet.
fn started(alloc: Global, from: &Format, shape: Shape) -> Result<Draft, AllocError>
    requires rows { IsSide shape.rows }
    requires cols { IsSide shape.cols }
    requires valid { IsValid from.now }
    requires accepted { first_refusal (declaration_of from.now) ≡ None }
    ensures made { IfOk result (λ x. (sorts : Bool) (d : Declaration) → IsDraft sorts (plain_shape shape) (declaration_of from.now) d 0 x) }
    ensures low { IfOk result (λ x. AreBelow x.columns x.fresh) }
    ensures room { IfOk result (λ x. x.fresh ≤ 65536) }
{
    let mut fresh = Fresh::new();
    let piece = unpack(alloc, from, shape, &mut fresh)?;
    Ok(Draft {
        fresh,
        columns: piece.columns,
        phases: piece.phases,
        give: Items::new(alloc),
    })
}

/// The program of a draft.
fn finished(from: &Format, draft: Draft) -> Program
    requires { IsValid from.now }
    ensures sources { result.sources ≡ total_count (declaration_of from.now) }
    ensures phases { result.phases ≡ draft.phases }
    ensures give { result.give ≡ draft.give }
{
    let count = from.buffers();
    let sources = count as u32;
    let Draft {
        fresh: _,
        columns: _,
        phases,
        give,
    } = draft;
    Program {
        sources,
        phases,
        give,
    }
}

/// The program from one format to another.
fn program_of(
    alloc: Global,
    from: &Format,
    to: &Format,
    shape: Shape,
) -> Result<Program, AllocError>
    requires rows { IsSide shape.rows }
    requires cols { IsSide shape.cols }
    requires valid_from { IsValid from.now }
    requires accepted_from { first_refusal (declaration_of from.now) ≡ None }
    requires valid { IsValid to.now }
    requires accepted { first_refusal (declaration_of to.now) ≡ None }
    ensures { IfOk result (λ p. IsRight (program_tree p) (declaration_of from.now) (declaration_of to.now) (plain_shape shape)) }
{
    let mut draft = started(alloc, from, shape)?;
    push_parts(alloc, to, shape, &mut draft)?;
    Ok(finished(from, draft))
}

/// The program between formats that are alike, which puts no entries in order.
fn sorted_program(
    alloc: Global,
    from: &Format,
    to: &Format,
    shape: Shape,
) -> Result<Program, AllocError>
    requires rows { IsSide shape.rows }
    requires cols { IsSide shape.cols }
    requires valid_from { IsValid from.now }
    requires accepted_from { first_refusal (declaration_of from.now) ≡ None }
    requires valid { IsValid to.now }
    requires accepted { first_refusal (declaration_of to.now) ≡ None }
    requires alike { alike (declaration_of from.now) (declaration_of to.now) ≡ true }
    ensures right { IfOk result (λ p. IsRight (program_tree p) (declaration_of from.now) (declaration_of to.now) (plain_shape shape)) }
    ensures unsorted { IfOk result (λ p. HaveNoOrder (program_tree p).phases) }
{
    let mut draft = started(alloc, from, shape)?;
    push_sorted(alloc, to, shape, &mut draft)?;
    Ok(finished(from, draft))
}

/// The check of a program that keeps the rules fails only for want of memory.
fn verified(alloc: Global, program: Program) -> Result<Verified, AllocError>
    requires typed { TypedProgram (program_tree program) }
    requires limits { KeepsLimits (program_tree program) }
    ensures { IfOk result (λ v. v ≡ program) }
{
    match verify(alloc, program) {
        Ok(verified) => Ok(verified),
        Err(_) => Err(AllocError),
    }
}

/// A program that makes the buffers of one format from those of another: for every matrix of the shape, if both sizes are
/// within the limit, in a number of steps in proportion to them. Where each has one part, without queries, and both the same
/// levels, it has no `order`. It fails only for want of memory.
pub fn compile(
    alloc: Global,
    from: &Format,
    to: &Format,
    shape: Shape,
) -> Result<Verified, AllocError>
    requires rows { IsSide shape.rows }
    requires cols { IsSide shape.cols }
    ensures right { IfOk result (λ v. IsRight (program_tree v) (declaration_of from.now) (declaration_of to.now) (plain_shape shape)) }
    ensures unsorted { IfOk result (λ v. AreAlike (declaration_of from.now) (declaration_of to.now) → HaveNoOrder (program_tree v).phases) }
{
    let _ = from.decl();
    let _ = to.decl();
    if is_alike(from, to) {
        let program = sorted_program(alloc, from, to, shape)?;
        verified(alloc, program)
    } else {
        let program = program_of(alloc, from, to, shape)?;
        verified(alloc, program)
    }
}

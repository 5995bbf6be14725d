//! The loops over the parts of a format.
ghost use Rattle.std.specs.Prelude.{◌≡◌, ◌+◌, ◌-◌, ◌<◌, ◌≤◌, ◌^◌, length, IfOk};
ghost use Rattle.us_format.specs.Program.{plain_shape};
ghost use Rattle.us_judge.specs.Format.{part_at};
ghost use Rattle.us_judge.specs.Views.{declaration_of};
ghost use Rattle.us_matrix.specs.Map.{IsSide};
ghost use Rattle.us_gen_places.specs.Dims.{next_start as start_behind, dim_count as dims_of};
ghost use Rattle.us_gen_parts.specs.Walks.{AreWalksOf, IsPushed, IsWalkOf};

use crate::places::places_of;
use std::alloc::{AllocError, Global};
use us_gen_places::PartStart;
use us_gen_unpack::PartWalk;
use us_judge::Format;
use us_matrix::Shape;

/// The loops over the part with this number, counted from 1.
fn part_walk(
    alloc: Global,
    format: &Format,
    number: usize,
    start: PartStart,
    shape: Shape,
) -> Result<PartWalk, AllocError>
    requires base { start.source < 2 ^ 31 }
    requires dims { start.dim < 2 ^ 31 }
    requires from_one { 1 ≤ number }
    requires part { number ≤ length (declaration_of format.now).parts }
    requires rows { IsSide shape.rows }
    requires cols { IsSide shape.cols }
    ensures { IfOk result (λ x. IsWalkOf start (plain_shape shape) (part_at (declaration_of format.now) (number - 1)) x) }
{
    let plan = format.plan(number);
    let planned = plan.steps();
    let row = plan.rows_at();
    let col = plan.cols_at();
    let steps = Vec::from_slice(alloc, planned)?;
    let places = places_of(alloc, format, number, start, shape)?;
    Ok(PartWalk {
        places,
        steps,
        row,
        col,
    })
}

/// How many levels the part with this number has, counted from 1.
fn level_count(format: &Format, number: usize) -> u32
    requires from_one { 1 ≤ number }
    requires part { number ≤ length (declaration_of format.now).parts }
    ensures is { result ≡ length (part_at (declaration_of format.now) (number - 1)).levels }
    ensures few { result ≤ 16 }
{
    let part = format.part(number);
    part.levels.len() as u32
}

/// Where the part behind the one with this number, counted from 1, begins.
fn next_start(format: &Format, number: usize, start: PartStart) -> PartStart
    requires base { start.source < 2 ^ 31 }
    requires dims { start.dim < 2 ^ 31 }
    requires from_one { 1 ≤ number }
    requires part { number ≤ length (declaration_of format.now).parts }
    ensures is { result ≡ start_behind start (part_at (declaration_of format.now) (number - 1)) }
    ensures source { result.source ≤ start.source + 81 }
    ensures dim { result.dim ≤ start.dim + 48 }
{
    let levels = level_count(format, number);
    PartStart {
        source: start.source + format.part_buffers(number) as u32,
        dim: start.dim + 16 + 2 * levels,
    }
}

/// Puts the loops over the part with this number, counted from 1, behind others.
fn push_walk(
    walks: &mut Vec<PartWalk>,
    alloc: Global,
    format: &Format,
    number: usize,
    start: PartStart,
    shape: Shape,
) -> Result<(), AllocError>
    requires base { start.source < 2 ^ 31 }
    requires dims { start.dim < 2 ^ 31 }
    requires from_one { 1 ≤ number }
    requires part { number ≤ length (declaration_of format.now).parts }
    requires rows { IsSide shape.rows }
    requires cols { IsSide shape.cols }
    ensures { IfOk result (λ _. IsPushed start (plain_shape shape) (part_at (declaration_of format.now) (number - 1)) walks.old.items walks.new.items) }
{
    let walk = part_walk(alloc, format, number, start, shape)?;
    walks.push(walk)?;
    Ok(())
}

/// The loops over all parts of a format for matrices of this shape. The sources are the buffers of the format; the dims
/// have the numbers from `first_dim` on. It fails only for want of memory.
pub fn part_walks(
    alloc: Global,
    format: &Format,
    shape: Shape,
    first_dim: u32,
) -> Result<Vec<PartWalk>, AllocError>
    requires dims { first_dim < 2 ^ 30 }
    requires rows { IsSide shape.rows }
    requires cols { IsSide shape.cols }
    ensures { IfOk result (λ xs. AreWalksOf (record { source = 0; dim = first_dim }) (plain_shape shape) (declaration_of format.now).parts xs.items) }
{
    let mut walks = Vec::new(alloc);
    let _ = format.first_part();
    let mut start = PartStart {
        source: 0,
        dim: first_dim,
    };
    let end = format.parts() + 1;
    for number in 1..end {
        push_walk(&mut walks, alloc, format, number, start, shape)?;
        start = next_start(format, number, start);
    }
    Ok(walks)
}

/// How many dims the loops over all parts have.
pub fn dim_count(format: &Format) -> u32
    ensures is { result ≡ dims_of (declaration_of format.now).parts }
    ensures few { result ≤ 192 }
{
    let _ = format.first_part();
    let end = format.parts() + 1;
    let mut count = 0;
    for number in 1..end {
        let levels = level_count(format, number);
        let dims = 16 + 2 * levels;
        count += dims;
    }
    count
}

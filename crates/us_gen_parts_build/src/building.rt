//! The piece that builds the buffers of a part.

ghost use Rattle.std.specs.Prelude.{◌≡◌, ◌+◌, ◌-◌, ◌<◌, ◌≤◌, ◌^◌, All, IfOk, OnOk, OnErr, MatchOption, length, map, take, true, false};
ghost use Rattle.us_code.specs.Plain.{phase_tree};
ghost use Rattle.us_expr.specs.Value.{IsWithin};
ghost use Rattle.us_format.specs.Program.{plain_shape};
ghost use Rattle.us_format.specs.Reading.{extent_count as extents_of};
ghost use Rattle.us_judge.specs.Format.{part_at};
ghost use Rattle.us_judge.specs.Views.{declaration_of, plain_part};
ghost use Rattle.us_matrix.specs.Map.{IsSide};
ghost use Rattle.us_gen_pack_building.specs.Levels.{FitRuns};
ghost use Rattle.us_gen_pack_building.specs.Phases.{pack_count};
ghost use Rattle.us_gen_parts.specs.Own.{IsPartOf};
ghost use Rattle.us_gen_parts_build.specs.Meaning.{BuildsPart, NamesQueries};
ghost use Rattle.us_gen_parts_build.specs.Phases.{part_phases, part_names};

use crate::levels::lows_of;
use crate::loops::part_loops;
use crate::queries::extent_count;
use sqlite_items::Items;
use std::alloc::{AllocError, Global};
use us_code::{BuildPiece, Columns, Fresh, Numbers, Phases, QueryPiece};
use us_decl::Part;
use us_gen_coordinates::coordinates_phase;
use us_gen_extents::extents_phase;
use us_gen_pack_building::{PackedLoops, pack_phases, packed_buffers};
use us_judge::Format;
use us_matrix::Shape;

/// All phases. Their numbers are from `first` on.
fn phases_of(
    alloc: Global,
    extents: &[u32],
    columns: &Columns,
    part: &Part,
    lows: &[i64],
    loops: &PackedLoops,
    first: u32,
) -> Result<Phases, AllocError>
    requires extents { length extents.now ≤ 16 }
    requires within { All (IsWithin (length columns.now.vars.items)) (plain_part part.now).levels }
    requires variables { length columns.now.vars.items ≤ 32 }
    requires levels { length (plain_part part.now).levels ≤ 16 }
    requires loops { length loops.now.part.levels.items ≤ 16 }
    requires packs { pack_count loops.now ≤ 16 }
    requires keys { MatchOption loops.now.part.keys (Unit {0}) (λ k. k ≤ length loops.now.part.levels.items) }
    requires runs { FitRuns (length loops.now.part.levels.items + 1) loops.now.packs.items }
    requires room { first < 2 ^ 31 }
    ensures { IfOk result (λ ps. map phase_tree ps ≡ part_phases columns.now (plain_part part.now).levels lows.now extents.now first loops.now) }
{
    let mut phases = Items::new(alloc);
    phases.push(extents_phase(alloc, extents, first)?)?;
    let values = part.levels.as_slice();
    phases.push(coordinates_phase(alloc, columns, values, lows, first + 16)?)?;
    phases.append(pack_phases(alloc, loops, first + 656)?)?;
    Ok(phases)
}

/// The buffers of the queries, and behind them those that are built.
fn buffers_of(
    alloc: Global,
    given: &[u32],
    loops: &PackedLoops,
    first: u32,
) -> Result<Numbers, AllocError>
    requires loops { length loops.now.part.levels.items ≤ 16 }
    requires packs { pack_count loops.now ≤ 16 }
    requires runs { FitRuns (length loops.now.part.levels.items + 1) loops.now.packs.items }
    requires room { first < 2 ^ 31 }
    ensures { IfOk result (λ bs. bs ≡ part_names given.now first loops.now) }
{
    let mut buffers = Numbers::from_slice(alloc, given)?;
    buffers.append(packed_buffers(alloc, loops, first + 656)?)?;
    Ok(buffers)
}

/// The piece of a part with these loops.
fn piece_of(
    alloc: Global,
    part: &Part,
    query: &QueryPiece,
    lows: &[i64],
    loops: &PackedLoops,
    first: u32,
) -> Result<BuildPiece, AllocError>
    requires queries { length (plain_part part.now).queries ≤ 16 }
    requires extents { extents_of (plain_part part.now) ≤ length query.now.buffers }
    requires within { All (IsWithin (length query.now.columns.vars.items)) (plain_part part.now).levels }
    requires variables { length query.now.columns.vars.items ≤ 32 }
    requires levels { length (plain_part part.now).levels ≤ 16 }
    requires loops { length loops.now.part.levels.items ≤ 16 }
    requires packs { pack_count loops.now ≤ 16 }
    requires keys { MatchOption loops.now.part.keys (Unit {0}) (λ k. k ≤ length loops.now.part.levels.items) }
    requires runs { FitRuns (length loops.now.part.levels.items + 1) loops.now.packs.items }
    requires room { first < 2 ^ 31 }
    ensures phases { IfOk result (λ b. map phase_tree b.phases
        ≡ part_phases query.now.columns (plain_part part.now).levels lows.now (take (extents_of (plain_part part.now)) query.now.buffers) first loops.now) }
    ensures buffers { IfOk result (λ b. b.buffers ≡ part_names query.now.buffers first loops.now) }
{
    let given = query.buffers.as_slice();
    let count = extent_count(part.queries.as_slice());
    let extents = &given[..count];
    let phases = phases_of(alloc, extents, &query.columns, part, lows, loops, first)?;
    let buffers = buffers_of(alloc, given, loops, first)?;
    Ok(BuildPiece { phases, buffers })
}

/// The piece of a part of a format. The entries are put in order where `sorts` says so.
fn piece_from(
    alloc: Global,
    format: &Format,
    number: usize,
    shape: Shape,
    query: &QueryPiece,
    sorts: bool,
    first: u32,
) -> Result<BuildPiece, AllocError>
    requires from_one { 1 ≤ number }
    requires part { number ≤ length (declaration_of format.now).parts }
    requires rows { shape.rows < 2 ^ 31 }
    requires cols { shape.cols < 2 ^ 31 }
    requires query { NamesQueries (part_at (declaration_of format.now) (number - 1)) query.now.columns query.now.buffers first }
    requires room { first < 2 ^ 31 }
    ensures { IfOk result (λ b.
        BuildsPart sorts (plain_shape shape) (part_at (declaration_of format.now) (number - 1)) query.now.columns query.now.buffers first
        (map phase_tree b.phases) b.buffers) }
{
    let part = format.part(number);
    let lows = lows_of(alloc, format, number, part, shape)?;
    let columns = &query.columns;
    let low = lows.as_slice();
    let loops = part_loops(
        alloc, format, number, part, shape, columns, low, sorts, first,
    )?;
    let piece = piece_of(alloc, part, query, low, &loops, first)?;
    Ok(piece)
}

/// The phases that build the buffers of a part, counted from 1, from the columns of its entries in any order and of its
/// variables, and from the buffers of its extents and tables, which its first buffers are. They take 1024 numbers from
/// `fresh`, which stays as it is where memory is wanting. It fails only for want of memory.
pub fn build(
    alloc: Global,
    format: &Format,
    part: usize,
    shape: Shape,
    query: &QueryPiece,
    fresh: &mut Fresh,
) -> Result<BuildPiece, AllocError>
    requires from_one { 1 ≤ part }
    requires part { part ≤ length (declaration_of format.now).parts }
    requires rows { IsSide shape.rows }
    requires cols { IsSide shape.cols }
    requires query { NamesQueries (part_at (declaration_of format.now) (part - 1)) query.now.columns query.now.buffers fresh.old }
    requires room { fresh.old < 2 ^ 31 }
    ensures piece { IfOk result (λ b.
        BuildsPart true (plain_shape shape) (part_at (declaration_of format.now) (part - 1)) query.now.columns query.now.buffers fresh.old
        (map phase_tree b.phases) b.buffers) }
    ensures taken { OnOk result (fresh.new ≡ fresh.old + 1024) }
    ensures unchanged { OnErr result (fresh.new ≡ fresh.old) }
{
    let first = fresh.next();
    let piece = piece_from(alloc, format, part, shape, query, true, first)?;
    fresh.take(1024);
    Ok(piece)
}

/// As `build`, from columns of entries in ascending order of the part's lists of coordinates: its phases put nothing in
/// order.
pub fn build_sorted(
    alloc: Global,
    format: &Format,
    part: usize,
    shape: Shape,
    query: &QueryPiece,
    fresh: &mut Fresh,
) -> Result<BuildPiece, AllocError>
    requires from_one { 1 ≤ part }
    requires part { part ≤ length (declaration_of format.now).parts }
    requires rows { IsSide shape.rows }
    requires cols { IsSide shape.cols }
    requires query { NamesQueries (part_at (declaration_of format.now) (part - 1)) query.now.columns query.now.buffers fresh.old }
    requires room { fresh.old < 2 ^ 31 }
    ensures piece { IfOk result (λ b.
        BuildsPart false (plain_shape shape) (part_at (declaration_of format.now) (part - 1)) query.now.columns query.now.buffers fresh.old
        (map phase_tree b.phases) b.buffers) }
    ensures taken { OnOk result (fresh.new ≡ fresh.old + 1024) }
    ensures unchanged { OnErr result (fresh.new ≡ fresh.old) }
{
    let first = fresh.next();
    let piece = piece_from(alloc, format, part, shape, query, false, first)?;
    fresh.take(1024);
    Ok(piece)
}

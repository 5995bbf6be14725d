//! Recovery of the indices, step by step.
ghost use Rattle.std.specs.Prelude.{◌≡◌, ◌<◌, ◌≤◌, ◌^◌, ◌+◌, ◌*◌, ℕ, List, pos, ◌+ℤ◌, ◌*ℤ◌, ◌-ℤ◌, ◌≤ℤ◌, ◌<ℤ◌, length, map, IfSome, slice_index_or, All, FitsSigned};
ghost use Rattle.std.proofs.Common.{w64};
ghost use Rattle.us_expr.specs.Tree.{Tree, tree};
ghost use Rattle.us_expr.specs.Range.{range, IsRangeable};
ghost use Rattle.us_format.specs.Lists.{nth, cell, nat_of};
ghost use Rattle.us_format.specs.Matrix.{Shape};
ghost use Rattle.us_format.specs.Declaration.{Part};
ghost use Rattle.us_format.specs.Recover.{checked, recovered};
ghost use Rattle.us_invert.specs.Plan.{give_at, steps_of, IsEarlier, IsSuited, IsPlan};
ghost use Rattle.us_invert.specs.Recovery.{cell_of, found_of, tables_of, step_value, IsLevelStep, IsPlaced, HasDivisor, StartFits, IsIndexValue, HasCoordinate, IsRecoveryOf};

use crate::steps::PlanStep;
use arrayvec::ArrayVec;
use us_expr::{Expr, Range, VarRanges, range_of};
use us_matrix::Buffers;

/// The indices of an entry, both counted from 0.
#[derive(Clone, Copy, Debug, PartialEq, Eq)]
pub struct Cell {
    /// The row.
    pub i: u32,
    /// The column.
    pub j: u32,
}

/// The tables and extents of the queries of a part, by the numbers of the queries.
#[derive(Debug, Drop)]
pub struct Tables<'a> {
    /// The lists of which some are tables.
    pub buffers: &'a Buffers,
    /// The number of the list that is the query's table. A number outside, or a place outside the list, reads as 0.
    pub at: ArrayVec<u32, 16>,
    /// The extent of the query, 0 of one that has none.
    pub extents: ArrayVec<u64, 16>,
}

/// The cell at a place, or 0.
fn cell_in(list: &[i64], place: u128) -> i64
    ensures { result ≡ cell list.now place }
{
    if place < list.len() as u128 {
        list[place as usize]
    } else {
        0
    }
}

/// The cell at a place of the table of a query, or 0.
fn cell_of(tables: &Tables, query: u32, place: u128) -> i64
    ensures { result ≡ cell (nth (tables_of tables.now.buffers.now tables.now.at.items) query) place }
{
    let at = tables.at.as_slice();
    let query = query as usize;
    if query >= at.len() {
        return 0;
    }
    let list = at[query] as usize;
    if list >= tables.buffers.count() {
        return 0;
    }
    cell_in(tables.buffers.list(list), place)
}

/// The extent of a query, or 0.
fn extent_of(tables: &Tables, query: u32) -> u64
    ensures { result ≡ slice_index_or tables.now.extents.items query 0 }
{
    let extents = tables.extents.as_slice();
    let query = query as usize;
    if query < extents.len() {
        extents[query]
    } else {
        0
    }
}

/// The number itself, or 0 where it is negative.
fn nat_of(z: i64) -> u64
    ensures { result ≡ nat_of z }
{
    if z < 0 { 0 } else { z as u64 }
}

fn joined(quotient: i64, remainder: i64, k: u32) -> i128
    ensures { result ≡ quotient *ℤ pos k +ℤ remainder }
{
    i128::from(quotient) * i128::from(k) + i128::from(remainder)
}

/// The place of a lane and a slot.
fn place_of(lane: i64, slot: i64, extent: u64) -> u128
    ensures { result ≡ nat_of lane * extent + nat_of slot }
{
    u128::from(nat_of(lane)) * u128::from(extent) + u128::from(nat_of(slot))
}

/// The value that a step gives, before its test.
fn step_value(step: PlanStep, kept: &[i64], lo: i64, values: &[i64], tables: &Tables) -> i128
    requires earlier { IsEarlier (length kept.now) step }
    requires level { IsPlaced values.now step }
    requires divisor { HasDivisor step }
    ensures { result ≡ step_value kept.now lo (found_of values.now tables.now.buffers.now tables.now.at.items tables.now.extents.items) step }
{
    match step {
        PlanStep::Const { value } => i128::from(value),
        PlanStep::Level { level } => i128::from(values[level as usize]) + i128::from(lo),
        PlanStep::Add { a, b } => i128::from(kept[a as usize]) + i128::from(kept[b as usize]),
        PlanStep::Sub { a, b } => i128::from(kept[a as usize]) - i128::from(kept[b as usize]),
        PlanStep::Join {
            quotient,
            remainder,
            k,
        } => joined(kept[quotient as usize], kept[remainder as usize], k),
        PlanStep::Div { a, k } => i128::from(kept[a as usize].div_euclid(i64::from(k))),
        PlanStep::Rem { a, k } => i128::from(kept[a as usize].rem_euclid(i64::from(k))),
        PlanStep::Order { query, rank } => {
            let place = u128::from(nat_of(kept[rank as usize]));
            i128::from(cell_of(tables, query, place))
        }
        PlanStep::Rows { query, lane, slot } => {
            let extent = extent_of(tables, query);
            let place = place_of(kept[lane as usize], kept[slot as usize], extent);
            i128::from(cell_of(tables, query, place)) - 1
        }
    }
}

/// The value, if it is in the range or the step is a constant or a level.
fn checked(step: PlanStep, range: Range, z: i128) -> Option<i64>
    requires { StartFits step z }
    ensures { (ts : List Tree) → result ≡ checked range (give_at ts step) z }
{
    match step {
        PlanStep::Const { .. } => Some(z as i64),
        PlanStep::Level { .. } => Some(z as i64),
        _ => {
            if i128::from(range.lo) <= z && z <= i128::from(range.hi) {
                Some(z as i64)
            } else {
                None
            }
        }
    }
}

/// The value of the next step, where the steps before it have the values `kept`.
fn next(
    expr: &Expr,
    step: PlanStep,
    values: &[i64],
    ranges: &VarRanges,
    tables: &Tables,
    kept: &[i64],
) -> Option<i64>
    requires rows { ranges.now.shape_rows < 2 ^ 31 }
    requires cols { ranges.now.shape_cols < 2 ^ 31 }
    requires rangeable { IsRangeable ranges.now.vars.items (tree expr.now) }
    requires level { IsLevelStep values.now (range ranges.now.shape_rows ranges.now.shape_cols ranges.now.vars.items (tree expr.now)) step }
    requires earlier { IsEarlier (length kept.now) step }
    requires suited { IsSuited (tree expr.now) step }
    ensures { (ts : List Tree) → result ≡ checked (range ranges.now.shape_rows ranges.now.shape_cols ranges.now.vars.items (tree expr.now)) (give_at ts step)
        (step_value kept.now (range ranges.now.shape_rows ranges.now.shape_cols ranges.now.vars.items (tree expr.now)).lo (found_of values.now tables.now.buffers.now tables.now.at.items tables.now.extents.items) step) }
{
    let range = range_of(expr, ranges);
    let z = step_value(step, kept, range.lo, values, tables);
    checked(step, range, z)
}

/// The number of an index.
fn index(z: i64) -> u32
    requires { (pos 0 ≤ℤ z) × (z <ℤ pos (2 ^ 32)) }
    ensures { pos result ≡ z }
{
    z as u32
}

/// The indices by these steps.
pub fn recover_steps(
    exprs: &[Expr],
    steps: &[PlanStep],
    rows_at: usize,
    cols_at: usize,
    values: &[i64],
    ranges: &VarRanges,
    tables: &Tables,
    kept: &mut ArrayVec<i64, 706>,
) -> Option<Cell>
    requires plan { IsPlan (map tree exprs.now) steps.now rows_at cols_at }
    requires rows { ranges.now.shape_rows < 2 ^ 31 }
    requires cols { ranges.now.shape_cols < 2 ^ 31 }
    requires rangeable { All (λ x. IsRangeable ranges.now.vars.items x.0) (steps_of (map tree exprs.now) steps.now) }
    requires coordinates { All (HasCoordinate ranges.now.shape_rows ranges.now.shape_cols ranges.now.vars.items values.now) (steps_of (map tree exprs.now) steps.now) }
    ensures { (s : Shape) (p : Part) → IsRecoveryOf (steps_of (map tree exprs.now) steps.now) ranges.now.shape_rows ranges.now.shape_cols ranges.now.vars.items tables.now.extents.items s p
        → cell_of result ≡ recovered s p (found_of values.now tables.now.buffers.now tables.now.at.items tables.now.extents.items) }
{
    kept.clear();
    for n in 0..steps.len() {
        let value = next(&exprs[n], steps[n], values, ranges, tables, kept.as_slice());
        let Some(value) = value else {
            return None;
        };
        kept.push(value);
    }
    let kept = kept.as_slice();
    Some(Cell {
        i: index(kept[rows_at]),
        j: index(kept[cols_at]),
    })
}

//! The phases that count one query.

ghost use Rattle.std.specs.Prelude.{◌≡◌, ◌+◌, ◌*◌, ◌<◌, ◌^◌, ◌++◌, [], ◌∷◌, IfOk, OnOk, map};
ghost use Rattle.us_code.specs.Plain.{tree_of, line_tree, phase_tree};
ghost use Rattle.us_expr.specs.Tree.{tree};
ghost use Rattle.us_expr.specs.Value.{IsWithin};
ghost use Rattle.us_format.specs.Matrix.{indices};
ghost use Rattle.us_format.specs.Declaration.{axis_of, query_of, argument};
ghost use Rattle.us_format.specs.Program.{plain_shape};
ghost use Rattle.us_format.specs.Rules.{is_index};
ghost use Rattle.us_gen_counting.specs.Phases as counted;

use sqlite_items::Items;
use std::alloc::{AllocError, Global};
use us_code::{
    Block, Buf, CellKind, Columns, Dim, DimLine, DimLines, Make, Makes, Phase, Phases, Term, load,
};
use us_expr::{Axis, Expr, Query};
use us_gen_query::{ScheduleBuffers, enumerate, fill, reorder, rows, schedule, sum};
use us_matrix::Shape;

/// A new buffer of a word for each entry.
pub(crate) fn words(buf: u32, columns: &Columns) -> Make
    ensures { result ≡ counted.words buf columns.now }
{
    Make {
        buf,
        len: Dim::Name(columns.count),
        cell: CellKind::Word,
    }
}

/// A new buffer of places of entries.
fn places(buf: u32, columns: &Columns) -> Make
    ensures { result ≡ counted.places buf columns.now }
{
    Make {
        buf,
        len: Dim::Name(columns.count),
        cell: CellKind::Below(Dim::Name(columns.count)),
    }
}

/// A new buffer of one word.
fn one_word(buf: u32) -> Make
    ensures { result ≡ counted.one_word buf }
{
    Make {
        buf,
        len: Dim::Number(1),
        cell: CellKind::Word,
    }
}

/// A new buffer of a word for each of `size` indices.
fn counts(buf: u32, size: u32) -> Make
    ensures { result ≡ counted.counts buf size }
{
    Make {
        buf,
        len: Dim::Number(size as u64),
        cell: CellKind::Word,
    }
}

/// A new buffer of `size` numbers below `bound`.
fn below(buf: u32, size: u32, bound: u32) -> Make
    ensures { result ≡ counted.below buf size bound }
{
    Make {
        buf,
        len: Dim::Number(size as u64),
        cell: CellKind::Below(Dim::Number(bound as u64)),
    }
}

/// Whether an argument is an index alone.
fn is_index(arg: &Expr) -> bool
    ensures { result ≡ is_index (tree arg.now) }
{
    matches!(arg, Expr::I | Expr::J)
}

/// The axis that an argument names.
fn axis_of(arg: &Expr) -> Axis
    ensures { result ≡ axis_of (tree arg.now) }
{
    match arg {
        Expr::J => Axis::Cols,
        _ => Axis::Rows,
    }
}

/// How many rows or columns there are.
fn indices(axis: Axis, shape: Shape) -> u32
    ensures { result ≡ indices axis (plain_shape shape) }
{
    match axis {
        Axis::Rows => shape.rows,
        Axis::Cols => shape.cols,
    }
}

/// The column of an index.
fn index_column(columns: &Columns, axis: Axis) -> u32
    ensures { result ≡ counted.index_column columns.now axis }
{
    match axis {
        Axis::Rows => columns.i,
        Axis::Cols => columns.j,
    }
}

/// The column of the values of an argument: that of an index, where it is one alone, else buffer `next`.
fn key(columns: &Columns, arg: &Expr, next: u32) -> u32
    ensures { result ≡ counted.key columns.now (tree arg.now) next }
{
    if is_index(arg) {
        index_column(columns, axis_of(arg))
    } else {
        next
    }
}

/// The new buffers of a count: places, a column of words, and one more, behind others.
fn count_makes(
    makes: &mut Makes,
    columns: &Columns,
    next: u32,
    last: Make,
) -> Result<(), AllocError>
    requires { next + 64 < 2 ^ 32 }
    ensures { OnOk result (makes.new ≡ makes.old ++ counted.count_makes columns.now next last) }
{
    makes.push(places(next + 1, columns))?;
    makes.push(words(next + 2, columns))?;
    makes.push(last)?;
    Ok(())
}

/// The new buffers of a count over the values of an argument: before the others those of the values, unless it is an
/// index alone.
fn key_makes(
    alloc: Global,
    columns: &Columns,
    arg: &Expr,
    next: u32,
    last: Make,
) -> Result<Makes, AllocError>
    requires { next + 64 < 2 ^ 32 }
    ensures { IfOk result (λ ms. ms ≡ counted.key_makes columns.now (tree arg.now) next (counted.count_makes columns.now next last)) }
{
    let mut makes = Items::new(alloc);
    if is_index(arg) {
        count_makes(&mut makes, columns, next, last)?;
        Ok(makes)
    } else {
        makes.push(words(next, columns))?;
        count_makes(&mut makes, columns, next, last)?;
        Ok(makes)
    }
}

/// A block behind the loop that fills the column of the values of an argument, unless it is an index alone.
fn key_fill(
    alloc: Global,
    columns: &Columns,
    arg: &Expr,
    next: u32,
    rest: Block,
) -> Result<Block, AllocError>
    requires within { IsWithin 32 (tree arg.now) }
    requires room { next + 64 < 2 ^ 32 }
    ensures { IfOk result (λ b. tree_of b ≡ counted.key_fill columns.now (tree arg.now) next (tree_of rest)) }
{
    if is_index(arg) {
        return Ok(rest);
    }
    let mut block = fill(alloc, columns, arg, next, next + 8)?;
    block.append(rest)?;
    Ok(block)
}

/// The phase of a sum.
fn sum_phase(alloc: Global, columns: &Columns, arg: &Expr, next: u32) -> Result<Phase, AllocError>
    requires within { IsWithin 32 (tree arg.now) }
    requires room { next + 64 < 2 ^ 32 }
    ensures { IfOk result (λ p. phase_tree p ≡ counted.sum_phase columns.now (tree arg.now) next) }
{
    let by = key(columns, arg, next);
    let makes = key_makes(alloc, columns, arg, next, words(next + 3, columns))?;
    let block = sum(alloc, columns, by, next + 1, next + 2, next + 3, next + 44)?;
    let body = key_fill(alloc, columns, arg, next, block)?;
    Ok(Phase {
        makes,
        body,
        dims: Items::new(alloc),
    })
}

/// The phase of an enumeration.
fn enumerate_phase(
    alloc: Global,
    columns: &Columns,
    arg: &Expr,
    next: u32,
) -> Result<Phase, AllocError>
    requires within { IsWithin 32 (tree arg.now) }
    requires room { next + 64 < 2 ^ 32 }
    ensures { IfOk result (λ p. phase_tree p ≡ counted.enumerate_phase columns.now (tree arg.now) next) }
{
    let by = key(columns, arg, next);
    let makes = key_makes(alloc, columns, arg, next, one_word(next + 3))?;
    let block = enumerate(alloc, columns, by, next + 1, next + 2, next + 3, next + 44)?;
    let body = key_fill(alloc, columns, arg, next, block)?;
    Ok(Phase {
        makes,
        body,
        dims: Items::new(alloc),
    })
}

/// The phase of a reordering.
fn reorder_phase(
    alloc: Global,
    shape: Shape,
    columns: &Columns,
    axis: Axis,
    next: u32,
) -> Result<Phase, AllocError>
    requires { next + 64 < 2 ^ 32 }
    ensures { IfOk result (λ p. phase_tree p ≡ counted.reorder_phase (plain_shape shape) columns.now axis next) }
{
    let size = indices(axis, shape);
    let mut makes = Items::new(alloc);
    makes.push(counts(next, size))?;
    makes.push(below(next + 1, size, size))?;
    makes.push(words(next + 2, columns))?;
    makes.push(below(next + 11, size, size))?;
    let column = index_column(columns, axis);
    let all = Dim::Number(size as u64);
    let (order, place) = (next + 11, next + 1);
    let body = reorder(
        alloc,
        columns,
        column,
        all,
        next,
        order,
        place,
        next + 2,
        next + 16,
    )?;
    Ok(Phase {
        makes,
        body,
        dims: Items::new(alloc),
    })
}

/// The buffers of a schedule.
fn schedule_buffers(next: u32) -> ScheduleBuffers
    requires { next + 64 < 2 ^ 32 }
    ensures { result ≡ counted.schedule_buffers next }
{
    ScheduleBuffers {
        counts: next,
        lane: next + 1,
        slot: next + 6,
        loads: next + 7,
        used: next + 8,
        extent: next + 3,
        lanes: next + 2,
        slots: next + 5,
    }
}

/// The new buffers of a schedule.
fn schedule_makes(
    alloc: Global,
    columns: &Columns,
    size: u32,
    lanes: u32,
    next: u32,
) -> Result<Makes, AllocError>
    requires { next + 64 < 2 ^ 32 }
    ensures { IfOk result (λ ms. ms ≡ counted.schedule_makes columns.now size lanes next) }
{
    let mut makes = Items::new(alloc);
    makes.push(counts(next, size))?;
    makes.push(below(next + 1, size, lanes))?;
    makes.push(words(next + 2, columns))?;
    makes.push(one_word(next + 3))?;
    makes.push(words(next + 5, columns))?;
    makes.push(counts(next + 6, size))?;
    makes.push(counts(next + 7, lanes))?;
    makes.push(counts(next + 8, lanes))?;
    Ok(makes)
}

/// The dims of a schedule: the slots of a lane, and the cells of its table.
fn schedule_lines(alloc: Global, lanes: u32, next: u32) -> Result<DimLines, AllocError>
    requires { next + 64 < 2 ^ 32 }
    ensures { IfOk result (λ ls. map line_tree ls ≡ counted.schedule_lines lanes next) }
{
    let mut lines = Items::new(alloc);
    lines.push(DimLine::Of {
        dim: next + 9,
        value: Term::Reg(next + 44),
    })?;
    lines.push(DimLine::Product {
        dim: next + 10,
        left: Dim::Number(lanes as u64),
        right: Dim::Name(next + 9),
    })?;
    Ok(lines)
}

/// The first phase of a schedule: the lane and the slot of each index and of each entry.
fn schedule_phase(
    alloc: Global,
    shape: Shape,
    columns: &Columns,
    axis: Axis,
    lanes: u32,
    next: u32,
) -> Result<Phase, AllocError>
    requires { next + 64 < 2 ^ 32 }
    ensures { IfOk result (λ p. phase_tree p ≡ counted.schedule_phase (plain_shape shape) columns.now axis lanes next) }
{
    let size = indices(axis, shape);
    let makes = schedule_makes(alloc, columns, size, lanes, next)?;
    let dims = schedule_lines(alloc, lanes, next)?;
    let column = index_column(columns, axis);
    let buffers = schedule_buffers(next);
    let all = Dim::Number(size as u64);
    let mut body = schedule(alloc, columns, column, all, lanes, &buffers, next + 16)?;
    body.push(load(next + 44, Buf::New(next + 3), Term::Number(0)))?;
    Ok(Phase { makes, body, dims })
}

/// The second phase of a schedule: its table.
fn rows_phase(alloc: Global, shape: Shape, axis: Axis, next: u32) -> Result<Phase, AllocError>
    requires { next + 64 < 2 ^ 32 }
    ensures { IfOk result (λ p. phase_tree p ≡ counted.rows_phase (plain_shape shape) axis next) }
{
    let cells = Dim::Name(next + 10);
    let mut makes = Items::new(alloc);
    makes.push(Make {
        buf: next + 11,
        len: cells,
        cell: CellKind::Word,
    })?;
    let all = Dim::Number(indices(axis, shape) as u64);
    let buffers = schedule_buffers(next);
    let body = rows(alloc, all, &buffers, cells, next + 9, next + 11, next + 40)?;
    Ok(Phase {
        makes,
        body,
        dims: Items::new(alloc),
    })
}

/// Both phases of a schedule.
fn schedule_phases(
    alloc: Global,
    shape: Shape,
    columns: &Columns,
    axis: Axis,
    lanes: u32,
    next: u32,
) -> Result<Phases, AllocError>
    requires { next + 64 < 2 ^ 32 }
    ensures { IfOk result (λ ps. map phase_tree ps ≡ counted.schedule_phases (plain_shape shape) columns.now axis lanes next) }
{
    let first = schedule_phase(alloc, shape, columns, axis, lanes, next)?;
    let second = rows_phase(alloc, shape, axis, next)?;
    let mut phases = one(alloc, first)?;
    phases.push(second)?;
    Ok(phases)
}

/// A list of one phase.
fn one(alloc: Global, phase: Phase) -> Result<Phases, AllocError>
    ensures { IfOk result (λ ps. ps ≡ phase ∷ []) }
{
    let mut phases = Items::new(alloc);
    phases.push(phase)?;
    Ok(phases)
}

/// The phases that count a query over the columns of entries. They name registers, buffers and dims from `next` on, 64
/// at most. It fails only for want of memory.
pub fn query_phases(
    alloc: Global,
    shape: Shape,
    columns: &Columns,
    query: &Query,
    next: u32,
) -> Result<Phases, AllocError>
    requires within { IsWithin 32 (argument (query_of query.now)) }
    requires room { next + 64 < 2 ^ 32 }
    ensures { IfOk result (λ ps. map phase_tree ps ≡ counted.query_phases (plain_shape shape) columns.now (query_of query.now) next) }
{
    match query {
        Query::Sum { var: _, arg } => one(alloc, sum_phase(alloc, columns, arg, next)?),
        Query::Enumerate { var: _, arg } => {
            one(alloc, enumerate_phase(alloc, columns, arg, next)?)
        }
        Query::Reorder { var: _, arg } => {
            let phase = reorder_phase(alloc, shape, columns, axis_of(arg), next)?;
            one(alloc, phase)
        }
        Query::Schedule {
            lane: _,
            slot: _,
            arg,
            lanes,
        } => schedule_phases(alloc, shape, columns, axis_of(arg), *lanes, next),
    }
}

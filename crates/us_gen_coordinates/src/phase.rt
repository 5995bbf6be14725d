//! The columns of the levels of a part.

ghost use Rattle.std.specs.Prelude.{◌≡◌, ◌+◌, ◌*◌, ◌<◌, ◌^◌, ◌++◌, All, IfOk, OnOk, length, map, None};
ghost use Rattle.us_code.specs.Plain.{phase_tree, term_tree, tree_of};
ghost use Rattle.us_expr.specs.Tree.{tree};
ghost use Rattle.us_expr.specs.Value.{IsWithin};
ghost use Rattle.us_gen_coordinates.specs.Phase as coordinates;
ghost use Rattle.us_gen_counting.specs.Phases as counted;

use sqlite_items::Items;
use std::alloc::{AllocError, Global};
use us_code::{
    Block, Buf, CellKind, Columns, Dim, Make, Makes, Numbers, Phase, Term, add, for_below, load,
    set, sub,
};
use us_expr::Expr;
use us_gen_query::fill;

/// The column of an index or a variable alone.
fn alone(columns: &Columns, e: &Expr) -> Option<u32>
    requires { IsWithin (length columns.now.vars.items) (tree e.now) }
    ensures { result ≡ coordinates.alone columns.now (tree e.now) }
{
    match e {
        Expr::I => Some(columns.i),
        Expr::J => Some(columns.j),
        Expr::Const(_) => None,
        Expr::Var(v) => Some(columns.vars[*v as usize]),
        Expr::Add(_, _) => None,
        Expr::Sub(_, _) => None,
        Expr::Div(_, _) => None,
        Expr::Rem(_, _) => None,
    }
}

/// The column that has the coordinates already: that of an index or a variable alone, where the low end is 0.
fn given(columns: &Columns, e: &Expr, low: i64) -> Option<u32>
    requires { IsWithin (length columns.now.vars.items) (tree e.now) }
    ensures { result ≡ coordinates.given columns.now (tree e.now) low }
{
    if low == 0 { alone(columns, e) } else { None }
}

/// The number in a register less a low end.
fn lowered(alloc: Global, from: u32, low: i64) -> Result<Term, AllocError>
    ensures { IfOk result (λ t. term_tree t ≡ coordinates.lowered from low) }
{
    let size = Term::Number(low.unsigned_abs());
    if low < 0 {
        add(alloc, Term::Reg(from), size)
    } else {
        sub(alloc, Term::Reg(from), size)
    }
}

/// The loop by which each cell of a buffer becomes less by the low end.
fn lower(
    alloc: Global,
    columns: &Columns,
    low: i64,
    buf: u32,
    next: u32,
) -> Result<Block, AllocError>
    requires { next + 2 < 2 ^ 32 }
    ensures { IfOk result (λ b. tree_of b ≡ coordinates.lower columns.now low buf next) }
{
    let cell = load(next + 1, Buf::New(buf), Term::Reg(next));
    let mut turn = Block::of(alloc, cell)?;
    let less = lowered(alloc, next + 1, low)?;
    turn.push(set(Buf::New(buf), Term::Reg(next), less))?;
    Block::of(alloc, for_below(next, Dim::Name(columns.count), turn))
}

/// A new buffer of a word for each entry.
fn words(buf: u32, columns: &Columns) -> Make
    ensures { result ≡ counted.words buf columns.now }
{
    Make {
        buf,
        len: Dim::Name(columns.count),
        cell: CellKind::Word,
    }
}

/// The new buffers of levels.
fn makes(
    alloc: Global,
    columns: &Columns,
    values: &[Expr],
    lows: &[i64],
    next: u32,
) -> Result<Makes, AllocError>
    requires within { All (λ e. IsWithin (length columns.now.vars.items) (tree e)) values.now }
    requires room { next + 40 * (length values.now + 1) < 2 ^ 32 }
    ensures { IfOk result (λ ms. ms ≡ coordinates.makes columns.now (map tree values.now) lows.now next) }
{
    match (values, lows) {
        ([e, others @ ..], [low, rest @ ..]) => {
            let more = makes(alloc, columns, others, rest, next + 40)?;
            match given(columns, e, *low) {
                Some(_) => Ok(more),
                None => {
                    let mut all = Makes::from_slice(alloc, &[words(next, columns)])?;
                    all.append(more)?;
                    Ok(all)
                }
            }
        }
        _ => Ok(Items::new(alloc)),
    }
}

/// The loops that fill the buffer of a level, in front of a block.
fn filled(
    alloc: Global,
    columns: &Columns,
    e: &Expr,
    low: i64,
    next: u32,
    rest: Block,
) -> Result<Block, AllocError>
    requires within { IsWithin 32 (tree e.now) }
    requires room { next + 40 < 2 ^ 32 }
    ensures { IfOk result (λ b. tree_of b ≡ coordinates.filled_for None columns.now (tree e.now) low next (tree_of rest)) }
{
    let mut block = fill(alloc, columns, e, next, next + 1)?;
    block.append(lower(alloc, columns, low, next, next + 37)?)?;
    block.append(rest)?;
    Ok(block)
}

/// The loops that fill the buffers of levels.
fn body(
    alloc: Global,
    columns: &Columns,
    values: &[Expr],
    lows: &[i64],
    next: u32,
) -> Result<Block, AllocError>
    requires within { All (λ e. IsWithin (length columns.now.vars.items) (tree e)) values.now }
    requires few { All (λ e. IsWithin 32 (tree e)) values.now }
    requires room { next + 40 * (length values.now + 1) < 2 ^ 32 }
    ensures { IfOk result (λ b. tree_of b ≡ coordinates.body columns.now (map tree values.now) lows.now next) }
{
    match (values, lows) {
        ([e, others @ ..], [low, rest @ ..]) => {
            let more = body(alloc, columns, others, rest, next + 40)?;
            match given(columns, e, *low) {
                Some(_) => Ok(more),
                None => filled(alloc, columns, e, *low, next, more),
            }
        }
        _ => Ok(Block::new(alloc)),
    }
}

/// The phase that makes a column of the coordinates of each level, whose values are those of the expressions and whose
/// low ends stand beside them. An index or a variable alone with the low end 0 has its column already. It names registers
/// and buffers from `next` on, 40 for each level. It fails only for want of memory.
pub fn coordinates_phase(
    alloc: Global,
    columns: &Columns,
    values: &[Expr],
    lows: &[i64],
    next: u32,
) -> Result<Phase, AllocError>
    requires within { All (λ e. IsWithin (length columns.now.vars.items) (tree e)) values.now }
    requires few { All (λ e. IsWithin 32 (tree e)) values.now }
    requires room { next + 40 * (length values.now + 1) < 2 ^ 32 }
    ensures { IfOk result (λ p. phase_tree p ≡ coordinates.coordinates_phase columns.now (map tree values.now) lows.now next) }
{
    Ok(Phase {
        makes: makes(alloc, columns, values, lows, next)?,
        body: body(alloc, columns, values, lows, next)?,
        dims: Items::new(alloc),
    })
}

/// The columns of the levels that the phase leaves, in order, behind others. It fails only for want of memory.
pub fn coordinate_columns(
    columns: &Columns,
    values: &[Expr],
    lows: &[i64],
    next: u32,
    names: &mut Numbers,
) -> Result<(), AllocError>
    requires within { All (λ e. IsWithin (length columns.now.vars.items) (tree e)) values.now }
    requires room { next + 40 * (length values.now + 1) < 2 ^ 32 }
    ensures { OnOk result (names.new ≡ names.old ++ coordinates.columns_for columns.now (map tree values.now) lows.now next) }
{
    match (values, lows) {
        ([e, others @ ..], [low, rest @ ..]) => {
            names.push(given(columns, e, *low).unwrap_or(next))?;
            coordinate_columns(columns, others, rest, next + 40, names)
        }
        _ => Ok(()),
    }
}

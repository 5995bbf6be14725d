//! The levels of a part for one shape and the extents of its queries.
ghost use Rattle.std.specs.Prelude.{◌≡◌, ◌<◌, ◌≤◌, ◌^◌, ◌-ℤ◌, ◌≤ℤ◌, ◌<ℤ◌, pos, length, map, All, IfOk};
ghost use Rattle.us_expr.specs.Tree.{tree};
ghost use Rattle.us_expr.specs.Range.{IsNear, IsRangeable};
ghost use Rattle.us_format.specs.Coordinates.{span};
ghost use Rattle.us_format.specs.Lists.{nat_of};
ghost use Rattle.us_build.specs.Levels.{level_over, levels_over};

use std::alloc::{AllocError, Global};
use us_expr::{Expr, Range, VarRanges, range_of};
use us_format::Kind;

/// A level: what it keeps, the least value of its expression, and how many coordinates it has.
#[derive(Clone, Copy, Debug)]
pub struct Level {
    pub kind: Kind,
    pub low: i64,
    pub size: u64,
}

/// How far a number is above another.
pub(crate) fn distance(low: i64, high: i64) -> u64
    requires order { low ≤ℤ high }
    requires near { (high -ℤ low) <ℤ pos (2 ^ 38) }
    ensures { result ≡ nat_of (high -ℤ low) }
{
    (high - low) as u64
}

/// How many numbers a range has.
fn span_of(range: Range) -> u64
    requires low { IsNear 68719476736 range.lo }
    requires high { IsNear 68719476736 range.hi }
    ensures span { result ≡ span range }
    ensures small { result < 2 ^ 38 }
{
    if range.hi < range.lo {
        return 0;
    }
    distance(range.lo, range.hi + 1)
}

/// The level of an expression where the variables have these ranges.
fn level_for(e: &Expr, kind: Kind, ranges: &VarRanges) -> Level
    requires rangeable { IsRangeable ranges.now.vars.items (tree e.now) }
    requires rows { ranges.now.shape_rows < 2 ^ 31 }
    requires cols { ranges.now.shape_cols < 2 ^ 31 }
    ensures level { result ≡ level_over ranges.now.shape_rows ranges.now.shape_cols ranges.now.vars.items (tree e.now) kind }
    ensures size { result.size < 2 ^ 38 }
{
    let range = range_of(e, ranges);
    Level {
        kind,
        low: range.lo,
        size: span_of(range),
    }
}

/// The levels of these expressions and kinds where the variables have these ranges.
pub(crate) fn levels_for(
    alloc: Global,
    exprs: &[Expr],
    kinds: &[Kind],
    ranges: &VarRanges,
) -> Result<Vec<Level>, AllocError>
    requires kinds { length kinds.now ≡ length exprs.now }
    requires rangeable { All (λ e. IsRangeable ranges.now.vars.items (tree e)) exprs.now }
    requires rows { ranges.now.shape_rows < 2 ^ 31 }
    requires cols { ranges.now.shape_cols < 2 ^ 31 }
    ensures levels { IfOk result (λ ls. ls.items ≡ levels_over ranges.now.shape_rows ranges.now.shape_cols ranges.now.vars.items (map tree exprs.now) kinds.now) }
    ensures sizes { IfOk result (λ ls. All (λ l. l.size < 2 ^ 38) ls.items) }
{
    let mut levels = Vec::new(alloc);
    for (k, e) in exprs.iter().enumerate() {
        levels.push(level_for(e, kinds[k], ranges))?;
    }
    Ok(levels)
}

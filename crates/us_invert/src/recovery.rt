//! The plan of a recovery, and recovery by it.
ghost use Rattle.std.specs.Prelude.{◌≡◌, ◌<◌, ◌≤◌, ◌^◌, ℕ, length, map, IfOk, All};
ghost use Rattle.us_expr.specs.Tree.{tree, RowIndex, ColIndex};
ghost use Rattle.us_expr.specs.Range.{IsRangeable};
ghost use Rattle.us_format.specs.Matrix.{Shape};
ghost use Rattle.us_format.specs.Declaration.{Part};
ghost use Rattle.us_format.specs.Recover.{recovered};
ghost use Rattle.us_invert.specs.Plan.{steps_of, IsPlan, item_at, HasSteps, IsStepOf};
ghost use Rattle.us_invert.specs.Recovery.{cell_of, found_of, HasCoordinate, IsRecoveryOf, StepsRecover};

use crate::recovering::{Cell, Tables, recover_steps};
use crate::steps::PlanStep;
use arrayvec::ArrayVec;
use std::alloc::{AllocError, Global};
use std::marker::Model;
use us_expr::{Expr, VarRanges};

/// The steps by which the indices of an entry are recovered from the coordinates of all levels of a part: each gives a
/// value to one expression. The last step gives an index, after the other one. Contracts see the expressions, each with
/// what gives its value.
#[derive(Debug, Drop)]
pub struct RecoveryPlan {
    exprs: Vec<Expr>,
    steps: Vec<PlanStep>,
    rows_at: usize,
    cols_at: usize,
}

impl Model for RecoveryPlan {
    ghost use Rattle.std.specs.Prelude.{map};
    ghost use Rattle.us_expr.specs.Tree.{tree};
    ghost use Rattle.us_format.specs.Known.{Steps};
    ghost use Rattle.us_known.specs.Code.{steps_code};
    ghost use Rattle.us_invert.specs.Plan.{steps_of, IsPlan};

    ghost Value = { Steps };

    ghost coded = { steps_code };

    ghost view = { λ p. steps_of (map tree p.exprs.items) p.steps.items };

    ghost invariant = { λ p. IsPlan (map tree p.exprs.items) p.steps.items p.rows_at p.cols_at };
}

/// A copy of the expressions.
fn copy_exprs(alloc: Global, exprs: &[Expr]) -> Result<Vec<Expr>, AllocError>
    ensures { IfOk result (λ copied. copied.items ≡ exprs.now) }
{
    let mut copied = Vec::new(alloc);
    for expr in exprs {
        copied.push(expr.copy(alloc)?)?;
    }
    Ok(copied)
}

impl RecoveryPlan {
    /// The plan of these steps.
    pub(crate) fn from_steps(
        exprs: Vec<Expr>,
        steps: Vec<PlanStep>,
        rows_at: usize,
        cols_at: usize,
    ) -> RecoveryPlan
        requires { IsPlan (map tree exprs.items) steps.items rows_at cols_at }
        ensures { result ≡ steps_of (map tree exprs.items) steps.items }
    {
        RecoveryPlan {
            exprs,
            steps,
            rows_at,
            cols_at,
        }
    }

    /// What gives each step its value, with the numbers of earlier steps as operands.
    /// What generated code does with them, it may follow: the values of these steps, one after the other, give both indices.
    pub fn steps(&self) -> &[PlanStep]
        ensures numbered { HasSteps self.now result.now }
        ensures recovers { StepsRecover self.now result.now }
    {
        self.steps.as_slice()
    }

    /// The expression to which a step gives a value.
    pub fn expr(&self, step: usize) -> &Expr
        requires { step < length self.now }
        ensures { tree result.now ≡ (item_at self.now step).0 }
    {
        &self.exprs[step]
    }

    /// The number of the step that gives the row.
    pub fn rows_at(&self) -> usize
        ensures { IsStepOf self.now RowIndex result }
    {
        self.rows_at
    }

    /// The number of the step that gives the column.
    pub fn cols_at(&self) -> usize
        ensures { IsStepOf self.now ColIndex result }
    {
        self.cols_at
    }

    /// An equal plan.
    pub fn copy(&self, alloc: Global) -> Result<RecoveryPlan, AllocError>
        ensures { IfOk result (λ p. p ≡ self.now) }
    {
        let exprs = copy_exprs(alloc, &self.exprs)?;
        let steps = Vec::from_slice(alloc, &self.steps)?;
        Ok(RecoveryPlan {
            exprs,
            steps,
            rows_at: self.rows_at,
            cols_at: self.cols_at,
        })
    }

    /// The indices of an entry, from its coordinates at all levels, each the value of a level less the low end of its range;
    /// `None` where a value that is reached before both indices stand isn't in the range of its expression. It uses the
    /// given memory for the values of the steps, and takes none.
    pub fn recover_with(
        &self,
        values: &ArrayVec<i64, 6>,
        ranges: &VarRanges,
        tables: &Tables,
        kept: &mut ArrayVec<i64, 706>,
    ) -> Option<Cell>
        requires rows { ranges.now.shape_rows < 2 ^ 31 }
        requires cols { ranges.now.shape_cols < 2 ^ 31 }
        requires rangeable { All (λ x. IsRangeable ranges.now.vars.items x.0) self.now }
        requires coordinates { All (HasCoordinate ranges.now.shape_rows ranges.now.shape_cols ranges.now.vars.items values.now.items) self.now }
        ensures { (s : Shape) (p : Part) → IsRecoveryOf self.now ranges.now.shape_rows ranges.now.shape_cols ranges.now.vars.items tables.now.extents.items s p
            → cell_of result ≡ recovered s p (found_of values.now.items tables.now.buffers.now tables.now.at.items tables.now.extents.items) }
    {
        recover_steps(
            &self.exprs,
            &self.steps,
            self.rows_at,
            self.cols_at,
            values.as_slice(),
            ranges,
            tables,
            kept,
        )
    }

    /// The indices of an entry, from its coordinates at all levels, each the value of a level less the low end of its range;
    /// `None` where a value that is reached before both indices stand isn't in the range of its expression. It takes no
    /// memory.
    pub fn recover(
        &self,
        values: &ArrayVec<i64, 6>,
        ranges: &VarRanges,
        tables: &Tables,
    ) -> Option<Cell>
        requires rows { ranges.now.shape_rows < 2 ^ 31 }
        requires cols { ranges.now.shape_cols < 2 ^ 31 }
        requires rangeable { All (λ x. IsRangeable ranges.now.vars.items x.0) self.now }
        requires coordinates { All (HasCoordinate ranges.now.shape_rows ranges.now.shape_cols ranges.now.vars.items values.now.items) self.now }
        ensures { (s : Shape) (p : Part) → IsRecoveryOf self.now ranges.now.shape_rows ranges.now.shape_cols ranges.now.vars.items tables.now.extents.items s p
            → cell_of result ≡ recovered s p (found_of values.now.items tables.now.buffers.now tables.now.at.items tables.now.extents.items) }
    {
        let mut kept = ArrayVec::new();
        self.recover_with(values, ranges, tables, &mut kept)
    }
}

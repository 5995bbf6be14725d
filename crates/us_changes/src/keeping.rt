// The sets of a script that aren't undone.
ghost use Rattle.std.specs.Prelude.{◌≡◌, ◌≤◌, ◌+◌, ◌-◌, All, List, IfOk, OnOk, length, take};
ghost use Rattle.us_matrix.specs.declared.matrix.Triple.{Triple};
ghost use Rattle.us_script.specs.Steps.{IsInside};
ghost use Rattle.us_changes.specs.Edits.{start, after, after_all};
ghost use Rattle.us_changes.specs.Keeping.{IsPut, made};

use std::alloc::{AllocError, Global};
use us_matrix::{Shape, Triple};
use us_script::Step;

/// The sets that aren't undone behind these steps, in their order.
pub fn sets_left(alloc: Global, shape: Shape, steps: &[Step]) -> Result<Vec<Triple>, AllocError>
    requires { All (IsInside shape.rows shape.cols) steps.now }
    ensures state { IfOk result (λ sets. (es : List Triple) → made es sets.items ≡ after_all (start es) steps.now) }
    ensures inside { IfOk result (λ sets. All (IsPut shape.rows shape.cols) sets.items) }
    ensures few { IfOk result (λ sets. length sets.items ≤ length steps.now) }
{
    let mut sets = Vec::new(alloc);
    for step in steps {
        keep(&mut sets, shape, *step)?;
    }
    Ok(sets)
}

// One step more.
fn keep(sets: &mut Vec<Triple>, shape: Shape, step: Step) -> Result<(), AllocError>
    requires old { All (IsPut shape.rows shape.cols) sets.old.items }
    requires inside { IsInside shape.rows shape.cols step }
    ensures state { OnOk result ((es : List Triple) → made es sets.new.items ≡ after (made es sets.old.items) step) }
    ensures inside { All (IsPut shape.rows shape.cols) sets.new.items }
    ensures few { length sets.new.items ≤ length sets.old.items + 1 }
{
    match step {
        Step::Set { i, j, v } => sets.push(Triple { i, j, v })?,
        Step::Undo => drop_last(sets),
        Step::Size { line: _ } => (),
    }
    Ok(())
}

// The latest set goes, where there is one.
fn drop_last(sets: &mut Vec<Triple>)
    ensures { sets.new.items ≡ take (length sets.old.items - 1) sets.old.items }
{
    sets.pop();
}

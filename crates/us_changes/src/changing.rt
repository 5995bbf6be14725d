// A matrix that a script changes.
ghost use Rattle.std.specs.Prelude.{◌≡◌, ◌≤◌, All, IfOk, length, map, take};
ghost use Rattle.us_matrix.specs.declared.matrix.Triple.{Triple};
ghost use Rattle.us_script.specs.Steps.{IsInside, AreSets};
ghost use Rattle.us_changes.specs.Edits.{edited, inverse, as_step, old_values};
ghost use Rattle.us_changes.specs.Keeping.{IsPut, IsEditedTo};

use crate::keeping::sets_left;
use crate::merging::{Merged, merge};
use crate::sorting::sort_sets;
use std::alloc::{AllocError, Global};
use us_matrix::{Matrix, Triple};
use us_script::{Script, Step};

/// The matrix behind a script, and the script that takes it back.
#[derive(Drop)]
pub struct ChangedMatrix {
    pub matrix: Matrix,
    pub inverse: Script,
}

/// The matrix behind the steps of a script whose sets lie in its shape, and the inverse: a set for each coordinate where the two
/// differ, in row-major order, with the old value or 0. It fails only for want of memory.
pub fn changes(alloc: Global, matrix: &Matrix, script: &Script) -> Result<ChangedMatrix, AllocError>
    requires { All (IsInside matrix.now.rows matrix.now.cols) script.now }
    ensures matrix { IfOk result (λ c. c.matrix ≡ edited matrix.now script.now) }
    ensures inverse { IfOk result (λ c. c.inverse ≡ inverse matrix.now script.now) }
    ensures sets { IfOk result (λ c. AreSets matrix.now.rows matrix.now.cols c.inverse) }
    ensures few { IfOk result (λ c. length c.inverse ≤ length script.now) }
{
    let Merged { entries, back } = merged_with(alloc, matrix, script.steps())?;
    let inverse = script_of(alloc, &back)?;
    Ok(ChangedMatrix {
        matrix: Matrix::from_triples(matrix.shape(), entries),
        inverse,
    })
}

/// The matrix behind the first `count` steps of a script whose sets lie in its shape. It fails only for want of memory.
pub fn matrix_after(
    alloc: Global,
    matrix: &Matrix,
    script: &Script,
    count: usize,
) -> Result<Matrix, AllocError>
    requires inside { All (IsInside matrix.now.rows matrix.now.cols) script.now }
    requires count { count ≤ length script.now }
    ensures { IfOk result (λ m. m ≡ edited matrix.now (take count script.now)) }
{
    let steps = script.steps();
    let merged = merged_with(alloc, matrix, &steps[..count])?;
    Ok(Matrix::from_triples(matrix.shape(), merged.entries))
}

// The steps' sets that aren't undone, merged with the entries of the matrix.
fn merged_with(alloc: Global, matrix: &Matrix, steps: &[Step]) -> Result<Merged, AllocError>
    requires { All (IsInside matrix.now.rows matrix.now.cols) steps.now }
    ensures matrix { IfOk result (λ m. IsEditedTo matrix.now steps.now m.entries.items) }
    ensures back { IfOk result (λ m. m.back.items ≡ old_values matrix.now.entries (edited matrix.now steps.now).entries) }
    ensures inside { IfOk result (λ m. All (IsPut matrix.now.rows matrix.now.cols) m.back.items) }
    ensures few { IfOk result (λ m. length m.back.items ≤ length steps.now) }
{
    let shape = matrix.shape();
    let entries = matrix.entries();
    let mut sets = sets_left(alloc, shape, steps)?;
    sort_sets(&mut sets)?;
    merge(alloc, shape, entries, &sets)
}

// The script of these sets.
fn script_of(alloc: Global, sets: &[Triple]) -> Result<Script, AllocError>
    ensures { IfOk result (λ s. s ≡ map as_step sets.now) }
{
    let mut script = Script::new(alloc);
    for set in sets {
        script.push(as_step(set))?;
    }
    Ok(script)
}

fn as_step(set: &Triple) -> Step
    ensures { result ≡ as_step set.now }
{
    Step::Set {
        i: set.i,
        j: set.j,
        v: set.v,
    }
}

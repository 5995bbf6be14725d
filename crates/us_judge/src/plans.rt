//! The plans by which parts recover the indices of their entries.
ghost use Rattle.std.specs.Prelude.{◌≡◌, [], ◌∷◌, map, All, IfOk};
ghost use Rattle.us_judge.specs.Plans.{IsPlannable, plan_for};
ghost use Rattle.us_judge.specs.Views.{plain_part, plain_body};

use sqlite_items::Items;
use std::alloc::{AllocError, Global};
use us_decl::{Body, Part};
use us_invert::{RecoveryPlan, plan};

/// The plan of a part whose levels make both indices known.
fn plan_part(alloc: Global, part: &Part) -> Result<RecoveryPlan, AllocError>
    requires { IsPlannable (plain_part part.now) }
    ensures { IfOk result (λ p. p ≡ plan_for (plain_part part.now)) }
{
    match plan(alloc, part.levels.as_slice(), part.queries.as_slice()) {
        Ok(plan) => Ok(plan),
        // both indices are known, so only memory is wanting
        Err(_) => Err(AllocError),
    }
}

/// The plan of an undivided declaration.
fn plan_one(alloc: Global, part: &Part) -> Result<Items<RecoveryPlan>, AllocError>
    requires { IsPlannable (plain_part part.now) }
    ensures { IfOk result (λ plans. plans ≡ plan_for (plain_part part.now) ∷ []) }
{
    let mut plans = Items::new(alloc);
    plans.push(plan_part(alloc, part)?)?;
    Ok(plans)
}

/// The plans of the parts of a divided declaration.
fn plan_parts(alloc: Global, parts: &[Part]) -> Result<Items<RecoveryPlan>, AllocError>
    requires { All IsPlannable (map plain_part parts.now) }
    ensures { IfOk result (λ plans. plans ≡ map plan_for (map plain_part parts.now)) }
{
    let mut plans = Items::new(alloc);
    for part in parts {
        plans.push(plan_part(alloc, part)?)?;
    }
    Ok(plans)
}

/// The plans of all parts.
pub fn plans_of(alloc: Global, body: &Body) -> Result<Items<RecoveryPlan>, AllocError>
    requires { All IsPlannable (plain_body body.now).parts }
    ensures { IfOk result (λ plans. plans ≡ map plan_for (plain_body body.now).parts) }
{
    match body {
        Body::One(part) => plan_one(alloc, part),
        Body::Split { parts, .. } => plan_parts(alloc, parts.as_slice()),
    }
}

/// The same plans.
pub fn copy_plans(alloc: Global, plans: &[RecoveryPlan]) -> Result<Items<RecoveryPlan>, AllocError>
    ensures { IfOk result (λ copy. copy ≡ plans.now) }
{
    let mut copy = Items::new(alloc);
    for plan in plans {
        copy.push(plan.copy(alloc)?)?;
    }
    Ok(copy)
}

//! How the indices of an entry are recovered from its coordinates.
//!
//! A plan is the list of steps that give values to the expressions of a part, up to both indices; a recovery walks it with
//! the coordinates of one entry. The steps name expressions by their numbers in the table of `us_known`.
#![tactic(auto)]

mod giving;
mod making;
mod planning;
mod recovering;
mod recovery;
mod starting;
mod steps;

pub use planning::{PlanFault, plan};
pub use recovering::{Cell, Tables};
pub use recovery::RecoveryPlan;
pub use steps::PlanStep;

//! Phases of loop code around the loops that count queries and select entries.
//!
//! Each law is what a function without code ensures. Proofs cite them from `proofs/`.
#![tactic(auto)]

mod counting;
mod laws;
mod queries;
mod selecting;

pub use counting::count_list;
pub use laws::{
    buffers_are_new, counts_lead, counts_typed, query_phases_count, query_phases_fit, select_typed,
    selects,
};
pub use queries::query_phases;
pub use selecting::select_list;

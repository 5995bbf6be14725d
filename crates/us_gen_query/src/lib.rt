//! Loop code that counts the queries of a part over the columns of its entries.
//!
//! Each law is what a function without code ensures. Proofs cite them from `proofs/`.
#![tactic(auto)]

mod counting;
mod filling;
mod laws;
mod reordering;
mod scheduling;
mod selecting;
mod terms;

pub use counting::{enumerate, sum};
pub use filling::fill;
pub use laws::{
    copies_chosen, copy_chosen_typed, count_chosen_typed, counts_chosen, enumerate_typed,
    enumerates, fill_typed, fills, passed_are_weights, reads_are_few, reorder_typed, reorders,
    rows_typed, schedule_typed, schedules, sum_typed, sums, tables_rows, terms_have_values,
};
pub use reordering::reorder;
pub use scheduling::{ScheduleBuffers, rows, schedule};
pub use selecting::{Test, copy_chosen, count_chosen, guard};
pub use terms::{reads, term_of};

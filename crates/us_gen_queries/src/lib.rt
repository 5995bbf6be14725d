//! The phases that count the queries of a part of a format, and those that select its entries.
//!
//! Each law is what a function without code ensures. Proofs cite them from `proofs/`.
#![tactic(auto)]

mod generators;
mod laws;

pub use generators::{count_queries, select};
pub use laws::{given_stays, heads_select, parts_count, selected_are_given, tables_are_within};

//! What loops rest on that count the queries of a format: they go over entries in the order of a value and keep a few
//! numbers, while a query is said by counts of the set of entries.
//!
//! The definitions stand in `specs/`: what a loop keeps after so many entries or indices, by recursion on their number.
//! The functions of this crate have no code: the contract of each is a law that these are the queries' values.
#![tactic(auto)]

mod laws;

pub use laws::{
    counts_are_ranked, entries_are_chosen, loads_are_scheduled, orders_sort,
    queries_define_variables, runs_are_enumerated, runs_are_summed, worked_rows,
};

//! Grammars as data: a table of parts, each with its choices and what they
//! make, one machine that reads by a table, and the laws of that reading,
//! for every table that passes its tests.
#![tactic(auto)]

pub mod laws;

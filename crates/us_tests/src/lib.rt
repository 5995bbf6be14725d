//! What no clause says, over whole files and commands: worked texts and files, and the answers that were worked out by
//! hand. Tests of one crate alone stand in `us_unit_tests`.
#![tactic(auto)]

#[cfg(test)]
mod code_runs;
#[cfg(test)]
mod commands;
#[cfg(test)]
mod compiles;
#[cfg(test)]
mod containers;
#[cfg(test)]
mod declarations;
#[cfg(test)]
mod formats;
#[cfg(test)]
mod generates;
#[cfg(test)]
mod listings;
#[cfg(test)]
mod matrix_files;
#[cfg(test)]
mod products;
#[cfg(test)]
mod queries;
#[cfg(test)]
mod runs;
#[cfg(test)]
mod samples;
#[cfg(test)]
mod smallest;

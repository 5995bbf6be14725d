//! What no clause says of one crate alone: loop code and its texts, expressions, regions of cells, scripts of changes and the
//! outside, with the answers that were worked out by hand. Tests over whole files and commands stand in `us_tests`.
#![tactic(auto)]

#[cfg(test)]
mod code_rules;
#[cfg(test)]
mod code_texts;
#[cfg(test)]
mod expressions;
#[cfg(test)]
mod outside;
#[cfg(test)]
mod regions;
#[cfg(test)]
mod scripts;

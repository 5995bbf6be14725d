//! What no clause says of programs that are made: pieces of conversions and whole ones are run by the machine on small
//! matrices, and what they give was worked out by hand.
#![tactic(auto)]

#[cfg(test)]
mod conversions;
#[cfg(test)]
mod counts;
#[cfg(test)]
mod entries;
#[cfg(test)]
mod listings;
#[cfg(test)]
mod machine;
#[cfg(test)]
mod samples;

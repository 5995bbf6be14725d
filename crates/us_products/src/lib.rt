//! The commands `spmv` and `spmm`: the product of a sparse matrix and a dense operand, modulo 2^64, by the loops of a format.
#![tactic(auto)]

mod command;
mod multiplying;
mod operand;

pub use command::product;

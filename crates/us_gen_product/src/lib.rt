//! Loops that add the products of a matrix and an operand, over all parts of a container.
//!
//! Each law is what a function without code ensures. Proofs cite them from `proofs/`.
#![tactic(auto)]

mod laws;
mod product;

pub use laws::{product_is_typed, products_add};
pub use product::{Product, product_phase};

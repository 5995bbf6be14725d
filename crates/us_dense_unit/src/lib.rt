//! Units of a dense product: the line `dense R K`, and behind it a program of loop code that makes the product.
#![tactic(auto)]

mod listing;
mod printing;

pub use listing::{dense_listings_read_back, push_dense_unit};
pub use printing::print_dense_unit;

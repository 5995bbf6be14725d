//! Index expressions of a format: their value at a point, their range, and the queries that define variables.
//!
//! Contracts see an expression as a plain tree, by `tree` of `specs/Tree.antt`.
#![tactic(auto)]

mod expression;
mod laws;
mod queries;
mod ranges;
mod values;

pub use expression::Expr;
pub use laws::{tree_tells_expression, value_lies_in_range};
pub use queries::{Axis, Cond, Query};
pub use ranges::{Range, VarRanges, range_of};
pub use values::{Point, eval};

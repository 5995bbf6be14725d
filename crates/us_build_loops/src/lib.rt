//! The building block on the rows of a part: what it needs is met, and what it leaves are the part's counts and buffers.
//!
//! The definitions stand in `specs/`: when levels of the loop stand for levels of a format (`Standing`), and where its
//! lists stand after all entries (`Finished`). The functions of this crate have no code: the contract of each is a law.
#![tactic(auto)]

mod laws;

pub use laws::{
    blocks_build_pieces, buffers_are_right, costs_are_linear, needs_are_met, orders_sort,
    positions_are_counted,
};

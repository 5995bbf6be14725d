//! Loop code: programs that make new lists of numbers from given ones, by loops that always end.
//!
//! A program is a list of phases. Each makes new buffers, runs a block of statements and fixes dims, which are
//! lengths and bounds. Contracts see blocks and terms as plain trees (`specs/Plain.antt`).
#![tactic(auto)]

mod blocks;
mod copying;
mod laws;
mod pieces;
mod program;
mod statements;
mod terms;

pub use laws::sample_runs;
pub use pieces::{BuildPiece, Columns, Fresh, ListPiece, QueryPiece};
pub use program::{
    Block, Buf, Bufs, CellKind, Dim, DimLine, DimLines, Make, Makes, Numbers, Phase, Phases,
    Program, Stmt, Term,
};
pub use statements::{
    for_below, if_else, let_reg, load, order, put, set, span, var, when, when_else,
};
pub use terms::{add, div, flat, mul, next, rem, sub, up};

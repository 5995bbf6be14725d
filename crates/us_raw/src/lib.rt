//! One allocation whose layout is computed while the program runs, seen as a
//! list of lists.
#![tactic(auto)]

mod block;
mod cells;
mod raw;
mod region;
mod width;
mod window;

#[doc(hidden)]
pub use block::Block;
#[doc(hidden)]
pub use raw::{Bytes, Right, Start};
pub use region::{Region, Segment};
pub use width::Width;
pub use window::{Parts, Rest, Window};

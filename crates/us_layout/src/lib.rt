//! How the lists of cells of a format are laid out: columns interleaved into one list and taken apart again, the
//! buffers of a part from the cells of its pieces, and the entries of a divided matrix by part.
#![tactic(auto)]

mod arranging;
mod interleaving;
mod pieces;
mod splitting;

pub use arranging::{arrange, pack_cells};
pub use interleaving::{interleave, interleaving_is_undone, separate};
pub use pieces::{Piece, is_packed, pieces_of};
pub use splitting::{Shares, split};

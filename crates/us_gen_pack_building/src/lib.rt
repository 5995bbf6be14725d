//! The phases that build all buffers of a part with packs from columns of its entries.
//!
//! The first phase is that of a part without packs, and it gives the numbers of the packs' cells too. The second makes the
//! buffers that the levels and the values keep of their own and the packs, and fills them in one loop over the entries.
//!
//! Each law is what a function without code ensures. Proofs cite them from `proofs/`.
#![tactic(auto)]

mod laws;
mod levels;
mod part;
mod phases;

pub use laws::{packing_builds, packing_counts, packings_build, packings_leave, packings_typed};
pub use part::{PackRun, PackedLoops};
pub use phases::{pack_phases, packed_buffers};

//! Buffers that are well-formed: exactly the buffers of a matrix in a format, within the limit.
#![tactic(auto)]

mod broken;
mod checking;
mod collecting;
mod held;
mod laws;
mod repeats;

pub use broken::Broken;
pub use checking::check;
pub use held::Held;
pub use laws::checked_buffers_are_well_formed;

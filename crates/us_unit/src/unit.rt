//! What reading a unit gives.

use us_code::Program;
use us_decl::Decl;

/// The declaration of a target, and a program of loop code for it.
#[derive(Drop)]
pub struct OneUnit {
    pub target: Decl,
    pub program: Program,
}

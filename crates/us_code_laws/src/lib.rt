//! Laws of loop code: what every block keeps, and what each statement does.
//!
//! Each law is what a function without code ensures. Proofs cite them from `proofs/`.
#![tactic(auto)]

mod laws;

pub use laws::{
    blocks_in_sequence, depends_on_names, for_is_its_turns, keeps_buffers, keeps_registers,
    ordered_by_keys, phases_in_sequence, statement_rules, typed_in_sequence, typed_is_sound,
    typed_programs_run, typed_where_more_is_visible, unbound_means_untyped,
};

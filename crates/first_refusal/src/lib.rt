//! Which token of a file its refusal names.
#![tactic(auto)]

mod laws;

pub use laws::first_offender_is_refused;

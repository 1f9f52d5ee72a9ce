//! Which line of a log its check names.
#![tactic(auto)]

mod laws;

pub use laws::first_fault_is_rejected;

//! One node of a proof worked to its outcome: by the rules of elimination that are due, one after
//! the other, over any store.
#![tactic(auto)]

mod concluding;
mod expanding;
mod taken;
mod working;

pub use expanding::expand;
pub use proof_steps::Node;

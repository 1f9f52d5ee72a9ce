//! Equalities of ratios and areas: the fraction of a term, and the conclusion of an equality of two.
#![tactic(auto)]

mod arith;
mod conclusion;
mod fault;
mod fraction;
mod laws;
mod term;
mod vector;

pub use conclusion::conclude;
pub use fault::RatioFault;
pub use laws::{bounded_conclusions_are_the_usual_ones, conclusions_mean_their_ratios};

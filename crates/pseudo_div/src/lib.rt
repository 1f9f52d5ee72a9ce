//! Elementary reductions and pseudo-division of polynomials in a store, within limits.
#![tactic(auto)]

mod division;
mod step;

pub use division::{Advance, Down, prem, step_on};
pub use step::red_step;

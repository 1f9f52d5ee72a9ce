//! Triangular systems over a store, and the reduction of conclusions by one.
#![tactic(auto)]

mod chain;
mod reducer;
mod system;

pub use chain::reduce_conclusions;
pub use reducer::{Divisor, divisor_of};
pub use system::is_triangular;

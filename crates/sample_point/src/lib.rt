//! Sample points: whole numbers at which the hypotheses of a problem are zero on the generic branch of its proof, so that its
//! claim speaks of something, or is refuted by them.
#![tactic(auto)]

mod evaluation;
mod finding;
mod found;
mod laws;
mod parts;
mod tests_of_points;
mod tries;
mod values;

pub use evaluation::value;
pub use finding::find;
pub use found::Found;
pub use laws::{conditions_are_of_the_generic_leaf, found_points_show};
pub use tests_of_points::{all_other, all_valued, all_zero};

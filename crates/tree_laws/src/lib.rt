//! Laws of the tree of a proof, over the definitions alone: what the prover and the checker both rest on.
#![tactic(auto)]

mod laws;

pub use laws::{
    fuel_pays_for_trees, pieces_fit_their_nodes, reasons_are_right, trees_are_within_limits,
    trees_of_problems_are_valid, trees_tell_what_is_left, trees_unfold, what_is_due_is_valid,
};

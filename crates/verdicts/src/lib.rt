//! What the tree of a proof proves: the verdict, and what it claims.
#![tactic(auto)]

mod judging;
mod verdict;

pub use judging::{add_condition, generic_leaf, has_minus, judge, plus_part, under};
pub use verdict::Verdict;

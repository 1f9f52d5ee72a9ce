//! The terms of an equality of ratios and areas, as lists of parts in preorder.
#![tactic(auto)]

mod laws;
mod part;

pub use laws::parts_are_one_list_of_terms;
pub use part::Part;

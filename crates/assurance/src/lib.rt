//! What a valid tree assures over every domain, whoever wrote it.
#![tactic(auto)]

mod laws;

pub use laws::{tallies_tell_verdicts, trees_cover, trees_keep_to_their_variables, verdicts_hold};

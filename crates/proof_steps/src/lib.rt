//! The steps, pieces and trees of a proof as data, and what the rules of elimination, the order of work and a valid tree
//! are.
#![tactic(auto)]

mod path;
mod piece;
mod problem;
mod step;
mod version;

pub use path::Path;
pub use piece::{ChainStep, LeafStatus, Node, Outcome, Piece, Tree};
pub use poly_model::Reason;
pub use problem::{MOST_CONCLUSION_TERMS, MOST_STATED_TERMS, Problem};
pub use step::{Attempt, Step};
pub use version::{VERSION, has_second};

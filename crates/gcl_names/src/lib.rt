//! Programs: the commands of a file with numbers in place of names.
#![tactic(auto)]

mod deed;
mod limits;
mod meaning;
mod points;
mod program;
mod reference;
mod resolution;
mod scope;
mod table;

pub use limits::{MOST_POINTS, MOST_PROVES};
pub use program::{Act, Deed, Program};
pub use resolution::resolve;

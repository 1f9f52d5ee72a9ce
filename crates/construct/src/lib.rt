//! The positions of a program's points, lines and circles.
#![tactic(auto)]

mod construction;
mod formulas;
mod limits;
mod made;
mod placing;
mod spots;

pub use placing::place;
pub use spots::Spots;

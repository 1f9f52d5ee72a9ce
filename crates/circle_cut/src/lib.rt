//! The points that a circle has in common with a line or a circle, and vectors over positions.
#![tactic(auto)]

mod cut;
mod exact;
mod limits;
mod line;
mod vector;

pub use cut::{cut_circle, cut_line};
pub use exact::{Exact, coordinates, over, over_signed, round};
pub use limits::{
    MOST_CUT, MOST_NORMAL, MOST_NORMAL_SQUARE, MOST_OFFSET, MOST_PLACE, MOST_SPAN, MOST_SQUARE,
};
pub use line::{direction, farther, line_with, midway, normal, offset, same_spot};
pub use vector::Vector;

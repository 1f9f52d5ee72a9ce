//! The part of a line in an area.
#![tactic(auto)]

mod part;

pub use part::{Area, Line, drawn_line, ends_are_one, line_part, line_part_is_the_part};

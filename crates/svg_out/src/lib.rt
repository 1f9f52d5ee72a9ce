//! Pictures as drawings in Scalable Vector Graphics.
#![tactic(auto)]

mod line;
mod side;
mod writing;

pub use writing::write_svg;

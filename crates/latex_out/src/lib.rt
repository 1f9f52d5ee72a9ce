//! Pictures as text for LaTeX, with the packages `pict2e` and `xcolor`.
#![tactic(auto)]

mod dash;
mod line;
mod name;
mod side;
mod writing;

pub use writing::write_latex;

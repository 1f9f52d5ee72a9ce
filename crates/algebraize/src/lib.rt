//! Figures and their equations.
#![tactic(auto)]

mod figure;
mod laws;
mod layout;
mod lines;
mod points;
mod primitive;
mod problem;
mod ratio;
mod rows;
mod system;
mod terms;
mod vectors;

pub use laws::{
    constructions_in_other_words, equations_mean_their_figure, problems_mean_their_figures,
    ratios_are_in_lowest_terms, statements_in_other_words,
};
pub use points::{NewPoints, new_points};
pub use problem::{acts_before, problems, system_of};
pub use proof_steps::Problem;
pub use ratio::{MILLIONTHS, MOST_MILLIONTHS};
pub use system::write_system;

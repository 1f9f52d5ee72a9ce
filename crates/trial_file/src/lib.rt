//! Files made from numbers: figures drawn by a generator, whose statements are to be proved. Each is accepted.
#![tactic(auto)]

mod choice;
mod draws;
mod laws;
mod text;

pub use laws::{first_trial_is_as_worked, trial_files_are_accepted};
pub use text::trial_file;

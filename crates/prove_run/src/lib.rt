//! The log of a program: its problems with their trees and verdicts.
#![tactic(auto)]

mod growing;
mod laws;
mod many;
mod proving;
mod room;
mod working;

pub use laws::{accepted_logs_are_whole, logs_of_problems_are_accepted, rooms_suffice};
pub use many::{MOST_WORKERS, prove_many};
pub use proving::prove_one;

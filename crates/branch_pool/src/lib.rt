//! A tree is done by workers, who steal branches from each other.
#![tactic(auto)]

mod board;
mod ends;
mod lane;
pub mod laws;
mod rule;
mod run;
mod seat;
mod whole;
mod work;

pub use board::Board;
pub use lane::{Lane, lanes};
pub use run::run_all;
pub use work::{Gate, Open, Work};

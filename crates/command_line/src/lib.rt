//! What the program answers to the words of its command line: its forms, over any desk and sinks.
#![tactic(auto)]

mod asked;
mod carried_lines;
mod carry;
mod carrying;
mod check;
mod checking;
mod comparing;
mod draft;
mod drawn;
mod invocation;
mod laws;
mod note;
mod numbers;
mod pipeline;
mod prover;
mod proving;
mod run;
mod sampling;
mod stage;
mod status;
mod trial;
mod verdict_lines;
mod workers;

pub use carry::carry_run;
pub use check::check_run;
pub use laws::{a_yes_is_assured, answers_are_unique, what_is_proved_is_assured};
pub use run::{gclc_run, latex_run, prove_one_run, sample_run, show_run, svg_run, system_run};
pub use status::{Status, exit_code};

//! Logs of proofs: a log as a whole value, its lines, the text of its lines both ways, and a reader of logs that come in
//! pieces.
#![tactic(auto)]

mod attempt;
mod cut;
mod fault;
mod feeding;
mod field;
mod laws;
mod limits;
mod line;
mod line_reading;
mod line_writing;
mod log;
mod place;
mod reader;
mod rest;
mod setting;
mod told;
mod words;
mod writing;

pub use fault::LineFault;
pub use feeding::pieces_do_not_matter;
pub use laws::{texts_are_short, texts_are_unique};
pub use limits::{FIRST_FUEL, MOST_INDEX, MOST_PROOFS};
pub use line::{LineWord, LogLine};
pub use line_reading::read_line;
pub use line_writing::write_verdict;
pub use log::{Log, Proof};
pub use reader::{LogFault, LogReader};
pub use words::word_text;
pub use writing::write_log;

//! The language of construction files: its words and what stands behind them, its reader, and its canonical spelling.
#![tactic(auto)]

mod argument;
mod bytes;
mod figure;
mod file;
mod lexer;
mod limits;
mod name;
mod reading;
mod refusal;
mod showing;
mod span;
mod table;
mod word;

pub use figure::read_figure;
pub use file::{Arg, Command, File, What};
pub use limits::{LONGEST_NAME, MOST_BYTE, MOST_BYTES, MOST_COMMANDS, MOST_COORDINATE, UNIT};
pub use name::Name;
pub use reading::{read, spelled_is_read, tokens_stand};
pub use refusal::{GclFault, Kind, Refusal};
pub use showing::{show, shown_is_read};
pub use span::Span;
pub use table::parameters_of;
pub use word::{Parameter, Range, Side, Statement, Word};

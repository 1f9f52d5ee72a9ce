//! Numbers in millionths, positions in ticks of 1/10,000 mm, and the decimal texts of both.
#![tactic(auto)]

mod curve;
mod fault;
mod fix;
mod limits;
mod power;
mod reading;
mod row;
mod spot;
mod writing;

pub use curve::{LineEq, Round};
pub use fault::NumberFault;
pub use fix::{Fix, written_is_read_back};
pub use limits::{MOST_DECIMALS, MOST_MILLIONTHS, MOST_TICKS, TICK_DECIMALS, TICK_MILLIONTHS};
pub use reading::read_fix;
pub use row::Row;
pub use spot::{Spot, ticks, write_ticks};

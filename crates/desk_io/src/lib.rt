//! What a program reads from and writes to: desks of files, sinks of bytes, and a pen that gathers small writes.
#![tactic(auto)]

mod desk;
mod memory;
mod pen;
mod real;
mod whole;

pub use desk::{Desk, Failed, Sink};
pub use memory::{MemDesk, MemSink};
pub use pen::{PEN_ROOM, Pen};
pub use real::{RealDesk, RealSink};
pub use whole::{DeskFault, read_whole};

//! The branches of a tree that workers share: a path waits, is held by one worker, and is done with its piece. A book keeps
//! the events, and its type keeps that each was possible at its place.
#![tactic(auto)]

mod answers;
mod arrange;
mod book;
mod event;
mod find;
pub mod laws;

pub use answers::{Gone, Idle, PathState, Unsplit};
pub use book::Book;
pub use event::{Event, Hold, Ticket};

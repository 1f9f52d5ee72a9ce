use crate::event::Ticket;

/// Where a path is.
#[derive(Clone, Copy, Debug, PartialEq, Eq)]
pub enum PathState {
    Waiting,
    /// By this worker.
    Held(u32),
    Done,
    /// Not in the book.
    Absent,
}

/// Why a book refused: where it had the path, and whether it was stopped.
#[derive(Clone, Copy, Debug, PartialEq, Eq)]
pub struct Gone {
    pub state: PathState,
    pub stopped: bool,
}

/// A split that was refused, with what it was given.
pub enum Unsplit<P> {
    Gone(Gone, P),
    OutOfMemory(Ticket, P),
}

/// What is left to do.
#[derive(Clone, Copy, Debug, PartialEq, Eq)]
pub enum Idle {
    /// A path was refused: no path is taken any more.
    Stopped,
    /// Nothing waits and nothing is held.
    Done,
    /// A path waits.
    Work,
    /// Nothing waits, but what is held may bring more.
    Wait,
}

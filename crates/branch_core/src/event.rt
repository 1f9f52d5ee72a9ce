ghost use Rattle.std.specs.Prelude.{◌≡◌};

use proof_steps::Path;
use std::marker::Model;

/// What happened in a book: by which worker, at which path, and with which piece.
#[derive(Drop)]
pub enum Event<P> {
    Take(u32, Path),
    Split(u32, Path, P),
    Leaf(u32, Path, P),
    Refuse(u32, Path),
}

/// A path that a worker holds.
#[derive(Clone, Copy)]
pub struct Hold {
    pub path: Path,
    pub worker: u32,
}

/// The right of a worker to end a path that it took. It must be spent. Contracts see the path and the worker.
pub struct Ticket {
    pub(crate) path: Path,
    pub(crate) worker: u32,
}

impl Model for Ticket {
    ghost use Rattle.std.specs.Prelude.{List, Bool, ℕ};

    ghost Value = { List Bool × ℕ };

    ghost view = { λ ticket. (ticket.path, ticket.worker) };
}

impl Ticket {
    /// The path that was taken.
    pub fn path(&self) -> Path
        ensures { result ≡ self.now.0 }
    {
        self.path
    }

    /// The worker that took it.
    pub fn worker(&self) -> u32
        ensures { result ≡ self.now.1 }
    {
        self.worker
    }
}

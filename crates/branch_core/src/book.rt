ghost use Rattle.std.specs.Prelude.{◌≡◌, ◌<◌, ◌≤◌, ◌++◌, ◌∷◌, [], length, vec_len, vec_capacity, IfOk, OnOk, IfErr, OnErr};
ghost use Rattle.poly_model.specs.declared.limits.TheConstants.{MOST_LETTERS};
ghost use Rattle.branch_core.specs.declared.event.Event.TheVariants as event;
ghost use Rattle.branch_core.specs.Room.{RoomForTwo};
ghost use Rattle.branch_core.specs.Told.{Tells, IsGone, IsUnsplit, IsIdle, split_by, leaf_by, refuse_by};

use crate::answers::{Gone, Idle, Unsplit};
use crate::event::{Event, Hold, Ticket};
use crate::find::{held_at, path_state, waits_at};
use proof_steps::Path;
use std::alloc::{AllocError, Global};
use std::marker::Model;

/// A machine of branches, as what happened in it led to. Contracts see the events, from the first to the last.
#[derive(Drop)]
pub struct Book<P> {
    pub(crate) waiting: Vec<Path>,
    pub(crate) held: Vec<Hold>,
    pub(crate) history: Vec<Event<P>>,
    pub(crate) stopped: bool,
}

impl<P> Model for Book<P> {
    ghost use Rattle.std.specs.Prelude.{◌≡◌, List, Some, vec_len, vec_capacity};
    ghost use Rattle.branch_core.specs.declared.event.Event.{Event};
    ghost use Rattle.branch_core.specs.Machine.{replay, state_is, done_of};
    ghost use Rattle.branch_core.specs.Room.{HasRoom};

    ghost Value = { List (Event P) };

    ghost view = { λ b. b.history.items };

    ghost invariant = { λ b.
        (replay b.history.items
        ≡ Some (state_is b.waiting.items b.held.items (done_of b.history.items) b.stopped))
        × HasRoom b.stopped (vec_len b.waiting) (vec_capacity b.waiting) (vec_len b.held)
        (vec_capacity b.held) (vec_len b.history) (vec_capacity b.history) };
}

impl<P> Book<P> {
    /// The empty path waits, with the memory for its two events.
    pub fn new(alloc: Global) -> Result<Book<P>, AllocError>
        ensures { IfOk result (λ book. book ≡ []) }
    {
        let mut waiting = Vec::with_capacity(alloc, 1)?;
        waiting.push_reserved(Path::root());
        Ok(Book {
            waiting,
            held: Vec::with_capacity(alloc, 1)?,
            history: Vec::with_capacity(alloc, 2)?,
            stopped: false,
        })
    }

    /// Gives a waiting path to a worker. It is refused where the path does not wait or the book is stopped.
    pub fn take(&mut self, worker: u32, path: Path) -> Result<Ticket, Gone>
        ensures history { OnOk result (self.new ≡ self.old ++ event.Take worker path ∷ []) }
        ensures ticket { IfOk result (λ t. t ≡ (path, worker)) }
        ensures refused { IfErr result (λ g. IsGone self.old (event.Take worker path) path g) }
        ensures unchanged { OnErr result (self.new ≡ self.old) }
    {
        if self.stopped {
            return Err(self.gone(path));
        }
        let Some(at) = waits_at(self.waiting.as_slice(), path) else {
            return Err(self.gone(path));
        };
        let _path = self.waiting.remove(at);
        self.held.push_reserved(Hold { path, worker });
        self.history.push_reserved(Event::Take(worker, path));
        Ok(Ticket { path, worker })
    }

    /// Ends a path with its piece, after which both children wait. The memory for their events is taken here. This and
    /// the two calls below are refused where this book does not have the ticket's path held by the ticket's worker.
    pub fn split(&mut self, ticket: Ticket, piece: P) -> Result<(), Unsplit<P>>
        requires { length ticket.0 < MOST_LETTERS }
        ensures history { OnOk result (self.new ≡ self.old ++ split_by ticket piece ∷ []) }
        ensures refused { IfErr result (λ e. IsUnsplit self.old ticket piece e) }
        ensures unchanged { OnErr result (self.new ≡ self.old) }
    {
        let Ticket { path, worker } = ticket;
        let Some(at) = held_at(self.held.as_slice(), path, worker) else {
            return Err(Unsplit::Gone(self.gone(path), piece));
        };
        let Ok(()) = grow(&mut self.waiting, &mut self.held, &mut self.history) else {
            return Err(Unsplit::OutOfMemory(Ticket { path, worker }, piece));
        };
        let _hold = self.held.remove(at);
        self.waiting.push_reserved(path.child(true));
        self.waiting.push_reserved(path.child(false));
        self.history
            .push_reserved(Event::Split(worker, path, piece));
        Ok(())
    }

    /// Ends a path that has no children with its piece.
    pub fn leaf(&mut self, ticket: Ticket, piece: P) -> Result<(), (Gone, P)>
        ensures history { OnOk result (self.new ≡ self.old ++ leaf_by ticket piece ∷ []) }
        ensures refused { IfErr result (λ e. IsGone self.old (leaf_by ticket piece) ticket.0 e.0) }
        ensures piece { IfErr result (λ e. e.1 ≡ piece) }
        ensures unchanged { OnErr result (self.new ≡ self.old) }
    {
        let Ticket { path, worker } = ticket;
        let Some(at) = held_at(self.held.as_slice(), path, worker) else {
            return Err((self.gone(path), piece));
        };
        let _hold = self.held.remove(at);
        self.history.push_reserved(Event::Leaf(worker, path, piece));
        Ok(())
    }

    /// Gives a path back, which waits again, and stops the book: no path is taken any more.
    pub fn refuse(&mut self, ticket: Ticket) -> Result<(), Gone>
        ensures history { OnOk result (self.new ≡ self.old ++ refuse_by ticket ∷ []) }
        ensures refused { IfErr result (λ g. IsGone self.old (refuse_by ticket) ticket.0 g) }
        ensures unchanged { OnErr result (self.new ≡ self.old) }
    {
        let Ticket { path, worker } = ticket;
        let Some(at) = held_at(self.held.as_slice(), path, worker) else {
            return Err(self.gone(path));
        };
        let _hold = self.held.remove(at);
        self.waiting.push_reserved(path);
        self.history.push_reserved(Event::Refuse(worker, path));
        self.stopped = true;
        Ok(())
    }

    /// What is left to do.
    pub fn idle(&self) -> Idle
        ensures { IsIdle self.now result }
    {
        if self.stopped {
            return Idle::Stopped;
        }
        if !self.waiting.is_empty() {
            return Idle::Work;
        }
        if self.held.is_empty() {
            Idle::Done
        } else {
            Idle::Wait
        }
    }

    fn gone(&self, path: Path) -> Gone
        ensures { Tells self.now path result }
    {
        Gone {
            state: path_state(
                self.waiting.as_slice(),
                self.held.as_slice(),
                self.history.as_slice(),
                path,
            ),
            stopped: self.stopped,
        }
    }
}

// Takes the memory for all events of two more paths.
fn grow<P>(
    waiting: &mut Vec<Path>,
    held: &mut Vec<Hold>,
    history: &mut Vec<Event<P>>,
) -> Result<(), AllocError>
    ensures waiting { waiting.new.items ≡ waiting.old.items }
    ensures held { held.new.items ≡ held.old.items }
    ensures history { history.new.items ≡ history.old.items }
    ensures waiting_kept { vec_capacity waiting.old ≤ vec_capacity waiting.new }
    ensures held_kept { vec_capacity held.old ≤ vec_capacity held.new }
    ensures history_kept { vec_capacity history.old ≤ vec_capacity history.new }
    ensures room { OnOk result (RoomForTwo (vec_len waiting.new) (vec_capacity waiting.new)
        (vec_len held.new) (vec_capacity held.new)
        (vec_len history.new) (vec_capacity history.new)) }
{
    waiting.reserve(held.len() + 2)?;
    held.reserve(waiting.len() + 2)?;
    history.reserve(held.len() + 2 * waiting.len() + 4)?;
    Ok(())
}

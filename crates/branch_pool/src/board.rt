ghost use Rattle.std.specs.Prelude.{◌≡◌, ◌<◌, length, IfSome};
ghost use Rattle.poly_model.specs.declared.limits.TheConstants.{MOST_LETTERS};

use branch_core::{Book, Idle, Ticket, Unsplit};
use proof_steps::Path;
use std::sync::{Condvar, Mutex, Wait};
use std::thread;

/// What the workers share: the book under a lock, and a bell that rings when there is work, or none will come.
#[derive(Drop)]
pub struct Board<P> {
    pub(crate) book: Mutex<Book<P>>,
    pub(crate) moved: Condvar,
}

impl<P: Drop> Board<P> {
    /// A board over a book.
    pub(crate) fn new(book: Book<P>) -> Board<P> {
        Board {
            book: Mutex::new(book),
            moved: Condvar::new(),
        }
    }

    /// None where the path does not wait or the book is stopped.
    pub(crate) fn take<R: Wait>(&self, rt: &R, worker: u32, path: Path) -> Option<Ticket>
        ensures { IfSome result (λ t. t ≡ (path, worker)) }
    {
        self.book.lock(rt).take(worker, path).ok()
    }

    /// Ends a path that has no children. It makes no work, so those who wait are woken where all is done, and only there.
    pub(crate) fn leaf<R: Wait>(&self, rt: &R, ticket: Ticket, piece: P) {
        let mut book = self.book.lock(rt);
        let _ = book.leaf(ticket, piece);
        let ended = matches!(&book.idle(), Idle::Done);
        drop(book);
        if ended {
            self.moved.notify_all();
        }
    }

    /// Ends a path whose children wait. False where memory ran out, and then the book is stopped.
    pub(crate) fn split<R: Wait>(&self, rt: &R, ticket: Ticket, piece: P) -> bool
        requires { length ticket.0 < MOST_LETTERS }
    {
        let ended = self.book.lock(rt).split(ticket, piece);
        self.moved.notify_all();
        match ended {
            Ok(()) => true,
            Err(Unsplit::Gone(_, _)) => true,
            Err(Unsplit::OutOfMemory(ticket, _)) => {
                self.refuse(rt, ticket);
                false
            }
        }
    }

    /// Gives a path back for want of memory, and stops the book.
    pub(crate) fn refuse<R: Wait>(&self, rt: &R, ticket: Ticket) {
        let _ = self.book.lock(rt).refuse(ticket);
        self.moved.notify_all();
    }

    /// Waits for work. True where there will be none.
    pub(crate) fn rest<R: Wait>(&self, rt: &R) -> bool {
        let book = self.book.lock(rt);
        match book.idle() {
            Idle::Stopped => true,
            Idle::Done => true,
            Idle::Work => {
                drop(book);
                thread::yield_now();
                false
            }
            Idle::Wait => {
                let _book = self.moved.wait(rt, book);
                false
            }
        }
    }
}

// Rows of a book of branches.
use anyhow::{Result, bail};
use branch_core::{Book, Gone, Idle, PathState};
use proof_steps::Path;
use std::alloc::Global;

// What a book answers to a worker who asks for a path; where it is given, it is given back at once.
fn refusal_to(book: &mut Book<u32>, worker: u32, path: Path) -> Option<Gone> {
    match book.take(worker, path) {
        Ok(ticket) => {
            let _refused = book.refuse(ticket);
            None
        }
        Err(gone) => Some(gone),
    }
}

// A book that refuses a path where it has it so, and is not stopped.
fn not_given(state: PathState) -> Option<Gone> {
    Some(Gone {
        state,
        stopped: false,
    })
}

// A path that is held is not given again, not to its holder either, who then ends it; nor is one that is done, or that is in no book.
fn check_held(alloc: Global) -> Result<()> {
    let mut book = Book::new(alloc)?;
    let Ok(ticket) = book.take(0, Path::root()) else {
        bail!("the empty path of a new book is not given");
    };
    let held = refusal_to(&mut book, 0, Path::root());
    let idle = book.idle();
    let ended = book.leaf(ticket, 7);
    if held != not_given(PathState::Held(0)) || idle != Idle::Wait || ended != Ok(()) {
        bail!("a path that is held: another answer");
    }
    let done = refusal_to(&mut book, 1, Path::root());
    let absent = refusal_to(&mut book, 1, Path::root().child(true));
    if done != not_given(PathState::Done)
        || absent != not_given(PathState::Absent)
        || book.idle() != Idle::Done
    {
        bail!("a path that is done, or in no book: another answer");
    }
    Ok(())
}

// A book in which a path was refused is stopped: the path waits, and is given to no one.
fn check_stopped(alloc: Global) -> Result<()> {
    let mut book = Book::new(alloc)?;
    let first = refusal_to(&mut book, 3, Path::root());
    let waits = Gone {
        state: PathState::Waiting,
        stopped: true,
    };
    if first.is_some()
        || book.idle() != Idle::Stopped
        || refusal_to(&mut book, 4, Path::root()) != Some(waits)
    {
        bail!("a book that is stopped: another answer");
    }
    Ok(())
}

// A ticket of another book does not end a path that waits in this one.
fn check_another(alloc: Global) -> Result<()> {
    let mut book: Book<u32> = Book::new(alloc)?;
    let mut other = Book::new(alloc)?;
    let Ok(ticket) = book.take(0, Path::root()) else {
        bail!("the empty path of a new book is not given");
    };
    let waits = Gone {
        state: PathState::Waiting,
        stopped: false,
    };
    if other.leaf(ticket, 7) != Err((waits, 7)) || other.idle() != Idle::Work {
        bail!("a ticket of another book: another answer");
    }
    Ok(())
}

/// All rows.
pub fn check_all(alloc: Global) -> Result<()> {
    check_held(alloc)?;
    check_stopped(alloc)?;
    check_another(alloc)
}

ghost use Rattle.std.specs.Prelude.{◌≡◌, ◌<◌, ◌≤◌, ◌+◌, IfOk, OnOk, vec_len, vec_capacity};
ghost use Rattle.branch_pool.specs.Views.{AreKept, IsKept};

use crate::board::Board;
use crate::lane::{Lane, lanes};
use crate::work::{Branch, Done, Gate, Work};
use std::alloc::{AllocError, Global};
use std::sync::Wait;

/// A worker's lane, the branches that its deque did not take, and its room to expand branches in.
#[derive(Drop)]
pub struct Seat<W: Work> {
    lane: Lane<Branch<W>>,
    kept: Vec<Branch<W>>,
    pub room: W::Room,
}

impl<W: Work> Seat<W> {
    // Takes the memory to keep two branches.
    fn reserve(&mut self) -> Result<(), AllocError>
        ensures { OnOk result (vec_len self.new.kept + 2 ≤ vec_capacity self.new.kept) }
    {
        self.kept.reserve(2)
    }

    // The children of a branch that was split: while one is in no worker's reach, the others wait for it.
    fn keep_both(&mut self, plus: Branch<W>, minus: Branch<W>)
        requires { vec_len self.old.kept + 2 ≤ vec_capacity self.old.kept }
        ensures { AreKept self.old.lane self.old.kept.items plus minus self.new.lane
            self.new.kept.items }
    {
        self.keep(plus);
        self.keep(minus);
    }

    fn keep(&mut self, branch: Branch<W>)
        requires { vec_len self.old.kept < vec_capacity self.old.kept }
        ensures kept { IsKept self.old.lane self.old.kept.items branch self.new.lane
            self.new.kept.items }
        ensures more { vec_len self.new.kept ≤ vec_len self.old.kept + 1 }
        ensures room { vec_capacity self.new.kept ≡ vec_capacity self.old.kept }
    {
        if let Err(branch) = self.lane.push(branch) {
            self.kept.push_reserved(branch);
        }
    }

    // The next branch: of its own, or else of another lane.
    fn next<R: Wait>(&mut self, rt: &R) -> Option<Branch<W>> {
        if let Some(branch) = self.kept.pop() {
            return Some(branch);
        }
        if let Some(branch) = self.lane.pop() {
            return Some(branch);
        }
        self.lane.steal_any(rt)
    }
}

/// As many seats as that, each with its room.
pub fn seats<W: Work>(alloc: Global, work: &W, count: usize) -> Result<Vec<Seat<W>>, AllocError>
    ensures { IfOk result (λ v. vec_len v ≡ count) }
{
    let mut seats = Vec::new(alloc);
    for lane in lanes(alloc, count)? {
        seats.push(Seat {
            lane,
            kept: Vec::new(alloc),
            room: work.make_room(alloc)?,
        })?;
    }
    Ok(seats)
}

/// Does one branch, and keeps its children in the seat. False where memory ran out, and then the book is stopped.
pub fn do_branch<W: Work, G: Gate, R: Wait>(
    rt: &R,
    alloc: Global,
    work: &W,
    gate: &G,
    board: &Board<Done<W>>,
    seat: &mut Seat<W>,
    worker: u32,
    branch: &Branch<W>,
) -> bool {
    let path = branch.path(work);
    let Some(ticket) = board.take(rt, worker, path) else {
        return true;
    };
    gate.pass(worker, &path);
    let Ok(()) = seat.reserve() else {
        board.refuse(rt, ticket);
        return false;
    };
    let Ok((done, children)) = branch.expand(alloc, work, &mut seat.room) else {
        board.refuse(rt, ticket);
        return false;
    };
    match children {
        None => {
            board.leaf(rt, ticket, done);
            true
        }
        Some((plus, minus)) => {
            if !board.split(rt, ticket, done) {
                return false;
            }
            seat.keep_both(plus, minus);
            true
        }
    }
}

/// Does branches until none is left, or memory runs out.
pub fn work_at<W: Work, G: Gate, R: Wait>(
    rt: &R,
    alloc: Global,
    work: &W,
    gate: &G,
    board: &Board<Done<W>>,
    seat: &mut Seat<W>,
    worker: u32,
) {
    for _ in rt.forever() {
        match seat.next(rt) {
            Some(branch) => {
                if !do_branch(rt, alloc, work, gate, board, seat, worker, &branch) {
                    return;
                }
            }
            None => {
                if board.rest(rt) {
                    return;
                }
            }
        }
    }
}

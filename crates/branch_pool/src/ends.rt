ghost use Rattle.std.specs.Prelude.{◌≡◌, IfOk, OnErr, OnOk, IfErr, MatchOption};
ghost use Rattle.branch_pool.specs.Deques.{new_end, gave_at, took_at};

use crate::rule::{Fair, Hand, Pushed, Taken};
use crossbeam_deque::{Pass, Steal, Stealer, Worker};
use std::alloc::{AllocError, Global};
use std::marker::Model;
use std::sync::Wait;

const FIRST_ROOM: usize = 64;

/// The owner's end of a deque.
#[derive(Drop)]
pub struct Owner<I> {
    deque: Worker<I, Global, Hand<I>, Fair>,
}

impl<I> Model for Owner<I> {
    ghost use Rattle.std.specs.Prelude.{◌≡◌};
    ghost use Rattle.branch_pool.specs.Deques.{End, end_is};
    ghost use Rattle.crossbeam_deque.specs.Handles.{worker_deque, worker_flavor, worker_view};

    ghost Value = { End I };

    ghost view = { λ o. end_is (worker_deque o.deque) (worker_view o.deque) };

    ghost invariant = { λ o. worker_flavor o.deque ≡ 0 };
}

impl<I: Drop> Owner<I> {
    pub fn new(alloc: Global) -> Result<Owner<I>, AllocError>
        ensures { IfOk result (λ o. o ≡ new_end o.deque) }
    {
        Ok(Owner {
            deque: Worker::fifo_as(alloc, FIRST_ROOM)?,
        })
    }
}

impl<I> Owner<I> {
    // A door to this deque, by a pass of its own.
    pub fn door(&self) -> Result<Door<I>, AllocError>
        ensures { IfOk result (λ d. d ≡ new_end self.now.deque) }
    {
        let thief = self.deque.stealer()?;
        let pass = thief.pass();
        Ok(Door { thief, pass })
    }

    pub fn push(&mut self, item: I) -> Result<(), I>
        ensures pushed { OnOk result (self.new ≡ gave_at item self.old) }
        ensures handed_back { IfErr result (λ x. x ≡ item) }
        ensures unchanged { OnErr result (self.new ≡ self.old) }
    {
        self.deque.push_as::<Pushed>(item)
    }

    pub fn pop(&mut self) -> Option<I>
        ensures { MatchOption result (self.new ≡ self.old) (λ x. self.new ≡ took_at x self.old) }
    {
        self.deque.pop_as::<Taken>()
    }
}

/// A thief's end of a deque.
#[derive(Drop)]
pub struct Door<I> {
    thief: Stealer<I, Global, Hand<I>, Fair>,
    pass: Pass<I, Hand<I>>,
}

impl<I> Model for Door<I> {
    ghost use Rattle.std.specs.Prelude.{◌≡◌};
    ghost use Rattle.branch_pool.specs.Deques.{End, end_is};
    ghost use Rattle.crossbeam_deque.specs.Handles.{stealer_deque, stealer_flavor, IsPassOf};
    ghost use Rattle.crossbeam_deque.specs.Handles as handles;

    ghost Value = { End I };

    ghost view = { λ d. end_is (stealer_deque d.thief) (handles.view d.pass) };

    ghost invariant = { λ d. IsPassOf (stealer_deque d.thief) d.pass
        × (stealer_flavor d.thief ≡ 0) };
}

impl<I: Drop> Door<I> {
    // Another door to the same deque, by a pass of its own.
    pub fn another(&self) -> Result<Door<I>, AllocError>
        ensures { IfOk result (λ d. d ≡ new_end self.now.deque) }
    {
        let thief = self.thief.clone()?;
        let pass = thief.pass();
        Ok(Door { thief, pass })
    }
}

impl<I> Door<I> {
    pub fn steal<R: Wait>(&mut self, rt: &R) -> Option<I>
        ensures { MatchOption result (self.new ≡ self.old) (λ x. self.new ≡ took_at x self.old) }
    {
        for _ in rt.forever() {
            match self.thief.steal_as::<Taken>(&mut self.pass) {
                Steal::Success(item) => return Some(item),
                Steal::Empty => return None,
                Steal::Retry => {}
            }
        }
        unreachable!()
    }
}

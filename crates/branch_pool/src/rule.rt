use crossbeam_deque::protocol::{Join, Outcome, Protocol, Split};
use std::collections::LinkedList;

/// What one pass has pushed to a deque and taken from it. No value of it is made.
pub struct Hand<I> {
    pub pushed: LinkedList<I>,
    pub taken: LinkedList<I>,
}

/// The rule of a lane's deque: nothing is lost, and nothing comes twice.
pub struct Fair;

impl<I> Protocol<I, Hand<I>> for Fair {
    ghost use Rattle.branch_pool.specs.Deques.{nothing, Balanced};

    ghost holds = { Balanced };

    ghost first = { nothing };

    ghost guest = { nothing };
}

/// Of a push: the item joins what was pushed.
pub struct Pushed;

impl<I> Outcome<I, Hand<I>> for Pushed {
    ghost use Rattle.std.specs.Prelude.{◌≡◌, ◌++◌};
    ghost use Rattle.branch_pool.specs.Deques.{hand};

    ghost then = { λ v xs w. w ≡ hand (v.pushed ++ xs) v.taken };
}

/// Of a pop or a steal: the item joins what was taken.
pub struct Taken;

impl<I> Outcome<I, Hand<I>> for Taken {
    ghost use Rattle.std.specs.Prelude.{◌≡◌, ◌++◌};
    ghost use Rattle.branch_pool.specs.Deques.{hand};

    ghost then = { λ v xs w. w ≡ hand v.pushed (v.taken ++ xs) };
}

/// A pass that is cut off begins with nothing, and one that is joined hands over all.
pub struct Parts;

impl<I> Split<Hand<I>> for Parts {
    ghost use Rattle.branch_pool.specs.Deques.{nothing};

    ghost left = { λ v. v };

    ghost right = { λ v. nothing };
}

impl<I> Join<Hand<I>> for Parts {
    ghost use Rattle.std.specs.Prelude.{◌++◌};
    ghost use Rattle.branch_pool.specs.Deques.{hand, nothing};

    ghost both = { λ v w. hand (v.pushed ++ w.pushed) (v.taken ++ w.taken) };

    ghost spent = { nothing };
}

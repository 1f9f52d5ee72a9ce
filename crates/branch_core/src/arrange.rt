ghost use Rattle.std.specs.Prelude.{◌≡◌, map, IfOk, OnOk};
ghost use Rattle.std.specs.List.Sorted.{IsPermutation};
ghost use Rattle.branch_core.specs.declared.event.Event.{Event};
ghost use Rattle.branch_core.specs.declared.answers.Idle.TheVariants as idle;
ghost use Rattle.branch_core.specs.Machine.{done_of};
ghost use Rattle.branch_core.specs.Told.{IsIdle};
ghost use Rattle.branch_core.specs.Trees.{Tree, preorder};
ghost use Rattle.branch_core.specs.Runs.{AreInPreorder, Arranges, AreOf};

use crate::book::Book;
use crate::event::Event;
use proof_steps::Path;
use std::alloc::AllocError;

impl<P: Drop> Book<P> {
    /// The pieces in preorder of their paths. After a run of a tree they are the tree's.
    pub fn assemble(self) -> Result<Vec<P>, AllocError>
        requires { IsIdle self idle.Done }
        ensures pieces { IfOk result (λ v. Arranges self v.items) }
        ensures tree { (t : Tree P) → AreOf t self → IfOk result (λ v. v.items ≡ preorder t) }
    {
        let Book {
            waiting: _,
            held: _,
            history,
            stopped: _,
        } = self;
        let mut done = done_pieces(history)?;
        in_preorder(&mut done)?;
        only_pieces(done)
    }
}

fn done_pieces<P: Drop>(history: Vec<Event<P>>) -> Result<Vec<(Path, P)>, AllocError>
    ensures { IfOk result (λ v. v.items ≡ done_of history.items) }
{
    let mut done = Vec::new(*history.allocator());
    for event in history {
        match event {
            Event::Take(_, _) => {}
            Event::Split(_, path, piece) => done.push((path, piece))?,
            Event::Leaf(_, path, piece) => done.push((path, piece))?,
            Event::Refuse(_, _) => {}
        }
    }
    Ok(done)
}

fn in_preorder<P: Drop>(done: &mut Vec<(Path, P)>) -> Result<(), AllocError>
    ensures same { IsPermutation done.old.items done.new.items }
    ensures sorted { OnOk result (AreInPreorder done.new.items) }
{
    done.sort_by(|a, b| a.0.preorder(&b.0))
}

fn only_pieces<P: Drop>(done: Vec<(Path, P)>) -> Result<Vec<P>, AllocError>
    ensures { IfOk result (λ v. v.items ≡ map (λ d. d.1) done.items) }
{
    let mut pieces = Vec::new(*done.allocator());
    for (_path, piece) in done {
        pieces.push(piece)?;
    }
    Ok(pieces)
}

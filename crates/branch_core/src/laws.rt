//! What holds of every book, every run and every run of a tree.
ghost use Rattle.std.specs.Prelude.{List};
ghost use Rattle.branch_core.specs.declared.event.Event.{Event};
ghost use Rattle.branch_core.specs.Machine.{IsRun};
ghost use Rattle.branch_core.specs.Trees.{Tree};
ghost use Rattle.branch_core.specs.Runs.{EachInOneState, TakenOnce, Conserves, Completes};

use crate::book::Book;

/// The events of a book were possible one after the other.
pub fn books_are_runs<P>(book: &Book<P>)
    ensures { IsRun book.now }
{
    let _ = &book.stopped;
}

/// In every run each path waits, is held once, is done once, or is in none of these states.
pub fn one_state_alone<P>()
    ensures { (history : List (Event P)) → EachInOneState history }
{}

/// In every run each path is taken at most once.
pub fn taken_once<P>()
    ensures { (history : List (Event P)) → TakenOnce history }
{}

/// In every run of a tree the pieces that are done, and those at and below the waiting and the held paths, are together
/// the tree's.
pub fn pieces_are_conserved<P>()
    ensures { (t : Tree P) (history : List (Event P)) → Conserves t history }
{}

/// Where nothing is left of a run of a tree, its pieces in preorder are the tree's.
pub fn whole_when_done<P>()
    ensures { (t : Tree P) (history : List (Event P)) → Completes t history }
{}

ghost use Rattle.std.specs.Prelude.{◌≡◌, ◌<◌, ◌≤◌, ◌++◌, ◌∷◌, [], true, cond, IfOk, OnOk, length, is_some};
ghost use Rattle.poly_model.specs.declared.limits.TheConstants.{EXPAND_UNITS, MOST_CONCLUSIONS, MOST_LETTERS};
ghost use Rattle.proof_steps.specs.Trees.{tree_at};
ghost use Rattle.proof_steps.specs.declared.version.TheConstants.{VERSION};
ghost use Rattle.term_store.specs.Changes.{Keeps};
ghost use Rattle.branch_core.specs.declared.event.Event.TheVariants as event;
ghost use Rattle.branch_pool.specs.Children.{piled};
ghost use Rattle.prove_run.specs.Ready.{IsReady};
ghost use Rattle.prove_run.specs.Turns.{MayTurn};

use branch_core::{Book, Unsplit};
use poly_model::OwnedPoly;
use proof_steps::{Node, Path, Piece};
use std::alloc::{AllocError, Global};
use term_store::TermStore;
use wang_split::expand;

/// The children wait too, the `+` child above the `-` child.
fn push_children(waiting: &mut Vec<Node>, children: Option<(Node, Node)>) -> Result<(), AllocError>
    ensures { OnOk result (waiting.new.items ≡ waiting.old.items ++ piled children) }
{
    if let Some((plus, minus)) = children {
        waiting.push(minus)?;
        waiting.push(plus)?;
    }
    Ok(())
}

/// A waiting path is taken, by worker 0, and ends with its piece. Fails for want of memory alone.
fn turn(book: &mut Book<Piece>, path: Path, piece: Piece, splits: bool) -> Result<(), AllocError>
    requires may { MayTurn book.old path }
    requires short { splits ≡ true → length path < MOST_LETTERS }
    ensures { OnOk result (book.new ≡ book.old ++ event.Take 0 path
        ∷ cond splits (event.Split 0 path piece) (event.Leaf 0 path piece) ∷ []) }
{
    let Ok(ticket) = book.take(0, path) else {
        unreachable!()
    };
    if !splits {
        return match book.leaf(ticket, piece) {
            Ok(()) => Ok(()),
            Err(_) => unreachable!(),
        };
    }
    match book.split(ticket, piece) {
        Ok(()) => Ok(()),
        Err(Unsplit::Gone(_gone, _piece)) => unreachable!(),
        Err(Unsplit::OutOfMemory(ticket, _)) => {
            let _ = book.refuse(ticket);
            Err(AllocError)
        }
    }
}

/// The tree of a root by the order of work, through a book. The nodes of the paths that wait in it stand on a stack.
pub fn grow<S: TermStore>(
    alloc: Global,
    s: &mut S,
    root: Node,
    cons: &[OwnedPoly],
) -> Result<Vec<Piece>, AllocError>
    requires root { IsReady root }
    requires path { root.path ≡ [] }
    requires cons { length cons.now ≤ MOST_CONCLUSIONS }
    requires room { EXPAND_UNITS ≤ (S.state s.old).spare }
    ensures pieces { IfOk result (λ pieces. pieces.items ≡ tree_at VERSION cons.now root) }
    ensures kept { Keeps (S.state s.old) (S.state s.new) }
{
    let mut book = Book::new(alloc)?;
    let mut waiting = Vec::new(alloc);
    waiting.push(root)?;
    while let Some(node) = waiting.pop() {
        let (piece, children) = expand(alloc, s, &node, cons)?;
        turn(&mut book, node.path, piece, children.is_some())?;
        push_children(&mut waiting, children)?;
    }
    book.assemble()
}

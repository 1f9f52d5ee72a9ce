ghost use Rattle.std.specs.Prelude.{◌≡◌, ◌≤◌, [], IfOk, length};
ghost use Rattle.poly_model.specs.declared.limits.TheConstants.{MOST_CONCLUSIONS};
ghost use Rattle.proof_steps.specs.Trees.{tree_at};
ghost use Rattle.proof_steps.specs.declared.version.TheConstants.{VERSION};
ghost use Rattle.prove_run.specs.Ready.{IsReady};

use crate::room::Room;
use branch_pool::{Gate, Work, run_all};
use poly_model::OwnedPoly;
use proof_steps::{Node, Path, Piece};
use std::alloc::{AllocError, Global};
use std::marker::{Brand, Model, PhantomData};
use std::sync::Wait;
use std::thread::Threads;
use wang_split::expand;

/// A node that waits for a worker. Contracts see the node.
#[derive(Drop)]
struct Waiting {
    node: Node,
}

impl Model for Waiting {
    ghost use Rattle.proof_steps.specs.declared.piece.Node.{Node};
    ghost use Rattle.prove_run.specs.Ready.{IsWaiting};

    ghost Value = { Node };

    ghost view = { λ w. w.node };

    ghost invariant = { λ w. IsWaiting w.node };
}

/// The conclusions and the root of a tree.
trait Named {
    ghost use Rattle.std.specs.Prelude.{List};
    ghost use Rattle.poly_model.specs.Polynomial.{Polynomial};
    ghost use Rattle.proof_steps.specs.declared.piece.Node.{Node};

    ghost cons: { List Polynomial };

    ghost root: { Node };
}

impl Named for Brand {
    ghost use Rattle.std.specs.Prelude.{[]};

    ghost cons = { [] };

    ghost root = { record { path = []; eqs = []; nes = []; fuel = 0 } };
}

/// The work under the root that K names.
#[derive(Drop)]
struct Growing<'a, K: Named> {
    cons: &'a [OwnedPoly],
    of: PhantomData<K>,
    ghost named: { cons.now ≡ K.cons },
    ghost few: { length cons.now ≤ MOST_CONCLUSIONS },
}

impl<K: Named> Work for Growing<'_, K> {
    type Item = Waiting;

    type Room = Room;

    type Piece = Piece;

    ghost use Rattle.prove_run.specs.Branches.{branches_of};

    ghost tree = { λ n. branches_of K.cons n };

    ghost path_of = { λ n. n.path };

    ghost root = { K.root };

    fn make_room(&self, alloc: Global) -> Result<Room, AllocError> {
        Room::new(alloc)
    }

    fn path(&self, item: &Waiting) -> Path {
        item.node.path
    }

    fn expand(
        &self,
        alloc: Global,
        room: &mut Room,
        item: &Waiting,
    ) -> Result<(Piece, Option<(Waiting, Waiting)>), AllocError> {
        let (piece, children) = expand(alloc, &mut room.store, &item.node, self.cons)?;
        match children {
            None => Ok((piece, None)),
            Some((plus, minus)) => {
                Ok((
                    piece,
                    Some((Waiting { node: plus }, Waiting { node: minus })),
                ))
            }
        }
    }
}

fn grow_named<K: Named + Send + Sync, G: Gate + Sync, R: Threads + Wait + Sync>(
    rt: &R,
    alloc: Global,
    root: Node,
    cons: &[OwnedPoly],
    workers: u32,
    gate: &G,
) -> Result<Vec<Piece>, AllocError>
    requires named { (cons.now ≡ K.cons) × (root ≡ K.root) }
    requires root { IsReady root }
    requires path { root.path ≡ [] }
    requires cons { length cons.now ≤ MOST_CONCLUSIONS }
    requires workers { 1 ≤ workers }
    ensures { IfOk result (λ pieces. pieces.items ≡ tree_at VERSION cons.now root) }
{
    let work: Growing<'_, K> = Growing {
        cons,
        of: PhantomData,
    };
    run_all(rt, alloc, &work, Waiting { node: root }, workers, gate)
}

/// The tree of a root by the order of work, which so many workers do together.
pub fn grow_together<G: Gate + Sync, R: Threads + Wait + Sync>(
    rt: &R,
    alloc: Global,
    root: Node,
    cons: &[OwnedPoly],
    workers: u32,
    gate: &G,
) -> Result<Vec<Piece>, AllocError>
    requires root { IsReady root }
    requires path { root.path ≡ [] }
    requires cons { length cons.now ≤ MOST_CONCLUSIONS }
    requires workers { 1 ≤ workers }
    ensures { IfOk result (λ pieces. pieces.items ≡ tree_at VERSION cons.now root) }
{
    grow_named::<Brand, G, R>(rt, alloc, root, cons, workers, gate)
}

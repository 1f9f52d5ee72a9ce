// The work on one node.
ghost use Rattle.std.specs.Prelude.{◌≡◌, ◌≤◌, ◌+◌, [], IfOk, length};
ghost use Rattle.poly_model.specs.declared.limits.TheConstants.{EXPAND_UNITS, MOST_CONCLUSIONS, MOST_FUEL, MOST_HYPOTHESES};
ghost use Rattle.proof_steps.specs.Rules.{size_of};
ghost use Rattle.proof_steps.specs.Trees.{expansion_of};
ghost use Rattle.term_store.specs.Changes.{Keeps};
ghost use Rattle.workbench.specs.Standing.{Stands, beneath, node_at};
ghost use Rattle.wang_split.specs.Halts.{IsFew};
ghost use Rattle.wang_split.specs.Expanded.{Rests, nodes_of};
ghost use Rattle.proof_steps.specs.declared.version.TheConstants.{VERSION};

use crate::concluding::conclude;
use crate::working::work;
use poly_model::{MOST_LETTERS, OwnedPoly};
use proof_steps::{Node, Piece};
use std::alloc::{AllocError, Global};
use term_store::TermStore;
use workbench::{Bench, open, release};

/// Works a node that stands in the store, which then has the lists of the node that is left.
fn finish<S: TermStore>(
    alloc: Global,
    s: &mut S,
    bench: &mut Bench,
    cons: &[OwnedPoly],
) -> Result<(Piece, Option<(Node, Node)>), AllocError>
    requires stands { Stands (beneath (S.state s.old) bench.old) (S.state s.old) [] bench.old }
    requires room { EXPAND_UNITS ≤ (beneath (S.state s.old) bench.old).spare }
    requires few { IsFew (node_at (S.state s.old) bench.old) }
    requires cons { length cons.now ≤ MOST_CONCLUSIONS }
    ensures stands { Stands (beneath (S.state s.old) bench.old) (S.state s.new) [] bench.new }
    ensures rests { IfOk result (λ e. Rests cons.now (node_at (S.state s.old) bench.old) [] e) }
{
    let mut steps = Vec::new(alloc);
    let halt = work(alloc, s, bench, &mut steps)?;
    conclude(alloc, s, bench, steps, halt, cons)
}

/// Works a node to its outcome by the rules that are due, one after the other: the piece that
/// records the work, and the two children, `+` before `-`, exactly where the node is split.
pub fn expand<S: TermStore>(
    alloc: Global,
    s: &mut S,
    node: &Node,
    cons: &[OwnedPoly],
) -> Result<(Piece, Option<(Node, Node)>), AllocError>
    requires fuel { size_of node.now ≤ node.now.fuel }
    requires most { node.now.fuel ≤ MOST_FUEL }
    requires few { length node.now.eqs + length node.now.nes
        ≤ MOST_HYPOTHESES + length node.now.path }
    requires cons { length cons.now ≤ MOST_CONCLUSIONS }
    requires room { EXPAND_UNITS ≤ (S.state s.old).spare }
    ensures piece { IfOk result (λ e. e.0 ≡ (expansion_of VERSION cons.now node.now).0) }
    ensures children { IfOk result (λ e. nodes_of e.1 ≡ (expansion_of VERSION cons.now node.now).1) }
    ensures kept { Keeps (S.state s.old) (S.state s.new) }
{
    let letters = node.path.len();
    prove!(letters <= MOST_LETTERS);
    let mut bench = open(alloc, s, node)?;
    let expanded = finish(alloc, s, &mut bench, cons);
    release(s, bench);
    expanded
}

ghost use Rattle.std.specs.Prelude.{◌≡◌, ◌≤◌, ◌<◌, ◌+◌, ◌-◌, ℕ, suc, IsTrue, length, true, get_or};
ghost use Rattle.std.specs.List.{CopiedTo, SameBelow, SameFrom};
ghost use Rattle.std.specs.Vec.{vec_capacity};
ghost use Rattle.term_region.specs.Pool.{run_at, Ordered, Settled, IsTop, Stays, sum_of, units_of, ends_last};

use crate::run::Run;
use poly_model::Term;

/// So many entries have been kept so far, and their terms end here.
#[derive(Clone, Copy, Debug)]
struct Edge {
    kept: usize,
    end: usize,
}

/// Moves so many terms down to a place.
fn move_down(terms: &mut Vec<Term>, start: usize, len: usize, to: usize)
    requires inside { start + len ≤ length terms.old.items }
    requires down { to ≤ start }
    ensures terms { length terms.new.items ≡ length terms.old.items }
    ensures copied { CopiedTo terms.old.items terms.new.items start to len }
    ensures below { SameBelow terms.old.items terms.new.items to }
    ensures from { SameFrom terms.old.items terms.new.items (to + len) }
    ensures room { vec_capacity terms.new ≡ vec_capacity terms.old }
{
    if to < start {
        terms.copy_within(start..start + len, to);
    }
}

/// Looks at the i-th entry: the run whose entry it is moves down behind those before it.
fn settle(
    terms: &mut Vec<Term>,
    runs: &mut Vec<Run>,
    order: &mut Vec<usize>,
    i: usize,
    edge: Edge,
) -> Edge
    requires settled { Settled runs.old.items order.old.items (length terms.old.items) i edge.kept
        edge.end }
    requires below { i < length order.old.items }
    ensures settled { Settled runs.new.items order.new.items (length terms.new.items) (suc i)
        result.kept result.end }
    ensures stays { Stays terms.old.items runs.old.items terms.new.items runs.new.items }
    ensures top { (k : ℕ) → (run_at runs.old.items k).live ≡ true
        → IsTop runs.old.items k i edge.kept edge.end (length order.old.items)
        → IsTop runs.new.items k (suc i) result.kept result.end (length order.new.items) }
    ensures terms { length terms.new.items ≡ length terms.old.items }
    ensures order { length order.new.items ≡ length order.old.items }
    ensures terms_room { vec_capacity terms.new ≡ vec_capacity terms.old }
    ensures runs_room { vec_capacity runs.new ≡ vec_capacity runs.old }
    ensures order_room { vec_capacity order.new ≡ vec_capacity order.old }
{
    let slot = order[i];
    let run = runs[slot];
    if !run.live {
        return edge;
    }
    if run.rank != i {
        return edge;
    }
    move_down(terms, run.start, run.len, edge.end);
    runs[slot] = Run {
        live: true,
        start: edge.end,
        len: run.len,
        rank: edge.kept,
    };
    order[edge.kept] = slot;
    Edge {
        kept: edge.kept + 1,
        end: edge.end + run.len,
    }
}

/// Moves all live runs down, one behind the other. The slots stay.
#[cold]
#[inline(never)]
pub fn compact(terms: &mut Vec<Term>, runs: &mut Vec<Run>, order: &mut Vec<usize>)
    requires ordered { Ordered runs.old.items order.old.items (length terms.old.items) }
    ensures ordered { Ordered runs.new.items order.new.items (length terms.new.items) }
    ensures stays { Stays terms.old.items runs.old.items terms.new.items runs.new.items }
    ensures short { length terms.new.items + length order.new.items
        ≤ sum_of units_of runs.old.items }
    ensures last { (k : ℕ)
        → IsTrue (ends_last runs.old.items (length order.old.items) (length terms.old.items) k)
        → IsTrue (ends_last runs.new.items (length order.new.items) (length terms.new.items) k) }
    ensures terms_room { vec_capacity terms.new ≡ vec_capacity terms.old }
    ensures runs_room { vec_capacity runs.new ≡ vec_capacity runs.old }
    ensures order_room { vec_capacity order.new ≡ vec_capacity order.old }
{
    let mut edge = Edge { kept: 0, end: 0 };
    let mut i = 0;
    while i < order.len() {
        edge = settle(terms, runs, order, i, edge);
        i += 1;
    }
    terms.truncate(edge.end);
    order.truncate(edge.kept);
}

/// Moves the live runs down where the pool is used up.
#[inline(always)]
pub fn make_room(terms: &mut Vec<Term>, runs: &mut Vec<Run>, order: &mut Vec<usize>, total: usize)
    requires ordered { Ordered runs.old.items order.old.items (length terms.old.items) }
    requires spare { sum_of units_of runs.old.items < total }
    requires terms { length terms.old.items ≤ total }
    requires order { length order.old.items ≤ total }
    ensures ordered { Ordered runs.new.items order.new.items (length terms.new.items) }
    ensures stays { Stays terms.old.items runs.old.items terms.new.items runs.new.items }
    ensures terms { length terms.new.items < total }
    ensures order { length order.new.items ≤ total }
    ensures last { (k : ℕ)
        → IsTrue (ends_last runs.old.items (length order.old.items) (length terms.old.items) k)
        → IsTrue (ends_last runs.new.items (length order.new.items) (length terms.new.items) k) }
    ensures terms_room { vec_capacity terms.new ≡ vec_capacity terms.old }
    ensures runs_room { vec_capacity runs.new ≡ vec_capacity runs.old }
    ensures order_room { vec_capacity order.new ≡ vec_capacity order.old }
{
    if terms.len() == total {
        compact(terms, runs, order);
    }
}

/// A pool is gathered early where it is longer by this than twice what is live, so that its terms stay in near memory.
const SLACK: usize = 8_192;

/// Moves the live runs down where the order is used up, or where the pool is much longer than the units that are live.
#[inline(always)]
pub fn make_way(
    terms: &mut Vec<Term>,
    runs: &mut Vec<Run>,
    order: &mut Vec<usize>,
    total: usize,
    live: usize,
)
    requires ordered { Ordered runs.old.items order.old.items (length terms.old.items) }
    requires spare { sum_of units_of runs.old.items < total }
    requires terms { length terms.old.items ≤ total }
    requires order { length order.old.items ≤ total }
    ensures ordered { Ordered runs.new.items order.new.items (length terms.new.items) }
    ensures stays { Stays terms.old.items runs.old.items terms.new.items runs.new.items }
    ensures terms { length terms.new.items ≤ total }
    ensures order { length order.new.items < total }
    ensures terms_room { vec_capacity terms.new ≡ vec_capacity terms.old }
    ensures runs_room { vec_capacity runs.new ≡ vec_capacity runs.old }
    ensures order_room { vec_capacity order.new ≡ vec_capacity order.old }
{
    if order.len() == total || (terms.len() > SLACK && (terms.len() - SLACK) / 2 > live) {
        compact(terms, runs, order);
    }
}

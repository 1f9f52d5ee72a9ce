// The two changes of a node: an equation is removed, or replaced.
ghost use Rattle.std.specs.Prelude.{◌≡◌, ◌≤◌, ◌<◌, ◌+◌, [], ◌∷◌, IsTrue, length, map};
ghost use Rattle.poly_model.specs.Standard.{is_standard};
ghost use Rattle.poly_model.specs.declared.limits.TheConstants.{ARITH_UNITS, POLY_UNITS};
ghost use Rattle.proof_steps.specs.Rules.{dropped};
ghost use Rattle.polynomials.specs.Held.{slot_of, polynomial_at};
ghost use Rattle.workbench.specs.Owned.{without};
ghost use Rattle.workbench.specs.Standing.{Stands, Becomes, Settled, beneath, slots_of, node_at, put_at};

use crate::bench::Bench;
use crate::facts::held;
use crate::parts::{give_up, term_count};
use polynomials::Poly;
use term_store::TermStore;

/// Removes an equation.
pub fn drop_equation<S: TermStore>(s: &mut S, bench: &mut Bench, i: usize)
    requires stands { Stands (beneath (S.state s.old) bench.old) (S.state s.old) [] bench.old }
    requires has { i < length bench.old.eqs.items }
    ensures { Becomes (beneath (S.state s.old) bench.old) (S.state s.new) bench.new
        (dropped (node_at (S.state s.old) bench.old) (i + 1)) }
{
    let gone = bench.eqs.remove(i);
    give_up(s, gone.poly);
    bench.size -= gone.terms;
    bench.size -= 1;
    bench.fuel -= 1;
}

/// Puts a new polynomial in place of an equation, whose list is given up. Where the node would be
/// short of fuel, the new list is given up instead.
pub fn settle<S: TermStore>(s: &mut S, bench: &mut Bench, i: usize, r: Poly) -> bool
    requires stands { Stands (without (S.state s.old) (slot_of r ∷ slots_of bench.old))
        (S.state s.old) (slot_of r ∷ []) bench.old }
    requires standard { IsTrue (is_standard (polynomial_at (S.state s.old) r)) }
    requires has { i < length bench.old.eqs.items }
    requires room { ARITH_UNITS + POLY_UNITS ≤ (S.state s.old).spare }
    ensures { Settled (without (S.state s.old) (slot_of r ∷ slots_of bench.old))
        (S.state s.new) bench.new result (node_at (S.state s.old) bench.old)
        (put_at (node_at (S.state s.old) bench.old) i (polynomial_at (S.state s.old) r)) }
{
    let terms = term_count(s, r);
    let old = bench.eqs[i];
    let size = bench.size - old.terms + terms;
    if bench.fuel.saturating_sub(1 + terms) < size {
        give_up(s, r);
        return false;
    }
    let new = held(s, &bench.nes, r);
    give_up(s, old.poly);
    bench.eqs[i] = new;
    bench.size = size;
    bench.fuel -= 1 + terms;
    true
}

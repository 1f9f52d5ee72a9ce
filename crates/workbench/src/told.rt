// A polynomial of the store beside one that is told.
ghost use Rattle.std.specs.Prelude.{◌≡◌, ◌<◌, ◌≤◌, ◌-◌, [], IfOk, length};
ghost use Rattle.poly_model.specs.Reduction.{same};
ghost use Rattle.proof_steps.specs.Numbers.{item};
ghost use Rattle.polynomials.specs.Held.{IsPoly, polynomial_at};
ghost use Rattle.workbench.specs.Standing.{Stands, beneath, node_at};

use crate::bench::Bench;
use poly_model::OwnedPoly;
use polynomials::{Poly, copy_out};
use std::alloc::{AllocError, Global};
use term_store::TermStore;

/// The polynomial of the store is the one that is told.
pub fn is_told<S: TermStore>(s: &S, held: Poly, p: &OwnedPoly) -> bool
    requires { IsPoly (S.state s.now) held }
    ensures { result ≡ same p.now (polynomial_at (S.state s.now) held) }
{
    let (slot, terms) = (held.slot(), p.terms());
    let count = s.len(slot);
    if count != terms.len() {
        return false;
    }
    for i in 0..count {
        if terms[i] != s.get(slot, i) {
            return false;
        }
    }
    true
}

/// The equation of a number is the polynomial that is told.
pub fn tells_equation<S: TermStore>(s: &S, bench: &Bench, i: u16, p: &OwnedPoly) -> bool
    requires stands { Stands (beneath (S.state s.now) bench.now) (S.state s.now) [] bench.now }
    requires has { i - 1 < length bench.now.eqs.items }
    requires some { 1 ≤ i }
    ensures { result ≡ same p.now (item (node_at (S.state s.now) bench.now).eqs i) }
{
    is_told(s, bench.eqs[i as usize - 1].poly, p)
}

/// A copy of the equation of a number.
pub fn copy_equation<S: TermStore>(
    alloc: Global,
    s: &S,
    bench: &Bench,
    i: u16,
) -> Result<OwnedPoly, AllocError>
    requires stands { Stands (beneath (S.state s.now) bench.now) (S.state s.now) [] bench.now }
    requires has { i - 1 < length bench.now.eqs.items }
    requires some { 1 ≤ i }
    ensures { IfOk result (λ p. p ≡ item (node_at (S.state s.now) bench.now).eqs i) }
{
    copy_out(alloc, s, bench.eqs[i as usize - 1].poly)
}

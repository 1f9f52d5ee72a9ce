// Polynomials copied into a store and out of it.
ghost use Rattle.std.specs.Prelude.{◌≡◌, ◌≤◌, IfOk};
ghost use Rattle.poly_model.specs.declared.limits.TheConstants.{ARITH_UNITS};
ghost use Rattle.polynomials.specs.Held.{IsPoly, Gives, polynomial_at};

use crate::poly::Poly;
use poly_model::OwnedPoly;
use std::alloc::{AllocError, Global};
use term_store::TermStore;

/// A copy of the polynomial in the store.
pub fn copy_in<S: TermStore>(s: &mut S, p: &OwnedPoly) -> Poly
    requires { ARITH_UNITS ≤ (S.state s.old).spare }
    ensures { Gives (S.state s.old) (S.state s.new) result p.now }
{
    let terms = p.terms();
    let out = s.fresh();
    for i in 0..terms.len() {
        let term = terms[i];
        s.push(out, term);
    }
    Poly { slot: out }
}

/// A copy of its own.
pub fn copy_out<S: TermStore>(alloc: Global, s: &S, a: Poly) -> Result<OwnedPoly, AllocError>
    requires { IsPoly (S.state s.now) a }
    ensures { IfOk result (λ p. p ≡ polynomial_at (S.state s.now) a) }
{
    let mut terms = Vec::new(alloc);
    for i in 0..s.len(a.slot) {
        terms.push(s.get(a.slot, i))?;
    }
    match OwnedPoly::from_terms(terms) {
        Ok(p) => Ok(p),
        Err(_) => unreachable!(),
    }
}

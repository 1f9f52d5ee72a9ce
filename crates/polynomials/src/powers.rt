// Powers of a variable that divide a polynomial.
ghost use Rattle.std.specs.Prelude.{◌≡◌, ◌≢◌, ◌≤◌, ◌<◌, []};
ghost use Rattle.poly_model.specs.Powers.{low_at, stripped};
ghost use Rattle.poly_model.specs.declared.limits.TheConstants.{MOST_VARIABLES, ARITH_UNITS};
ghost use Rattle.polynomials.specs.Held.{IsPoly, Gives, polynomial_at};

use crate::change::{Lowered, changed};
use crate::poly::Poly;
use term_store::TermStore;

/// The exponent of the greatest power of a variable that divides a polynomial, which is not 0.
pub fn low<S: TermStore>(s: &S, a: Poly, var: u8) -> u8
    requires a { IsPoly (S.state s.now) a }
    requires var { var < MOST_VARIABLES }
    requires some { polynomial_at (S.state s.now) a ≢ [] }
    ensures { result ≡ low_at var (polynomial_at (S.state s.now) a) }
{
    let mut least = s.get(a.slot, 0).exps[var as usize];
    for i in 1..s.len(a.slot) {
        let exponent = s.get(a.slot, i).exps[var as usize];
        if exponent < least {
            least = exponent;
        }
    }
    least
}

/// A polynomial, which is not 0, divided by the greatest power of a variable that divides it.
pub fn strip<S: TermStore>(s: &mut S, a: Poly, var: u8) -> Poly
    requires a { IsPoly (S.state s.old) a }
    requires var { var < MOST_VARIABLES }
    requires some { polynomial_at (S.state s.old) a ≢ [] }
    requires room { ARITH_UNITS ≤ (S.state s.old).spare }
    ensures { Gives (S.state s.old) (S.state s.new) result
        (stripped var (polynomial_at (S.state s.old) a)) }
{
    let by = low(s, a, var);
    Poly {
        slot: changed(s, &Lowered { var, by }, a.slot),
    }
}

ghost use Rattle.std.specs.Prelude.{◌≡◌, ◌≤◌, IsTrue};
ghost use Rattle.poly_model.specs.declared.limits.TheConstants.{ARITH_UNITS};
ghost use Rattle.poly_model.specs.Standard.{is_standard, polynomial_of};
ghost use Rattle.term_store.specs.States.{IsLive, list_at};
ghost use Rattle.poly_model.specs.Bounded.{degrees_of, degrees_fit, bounded_product, bounded_sum};
ghost use Rattle.polynomials.specs.Held.{polynomial_at, IsPoly, Answers};

use crate::exponents::raise;
use crate::poly::Poly;
use crate::product::mul_rows;
use poly_model::{Limit, MOST_VARIABLES, are_low, exponents_sum};
use term_store::{Slot, TermStore};

/// The degree in each variable.
fn degrees<S: TermStore>(s: &S, a: Slot) -> [u8; MOST_VARIABLES]
    requires live { IsLive (S.state s.now).lists a.0 }
    requires standard { IsTrue (is_standard (polynomial_of (list_at (S.state s.now).lists a.0))) }
    ensures { result ≡ degrees_of (polynomial_of (list_at (S.state s.now).lists a.0)) }
{
    let mut highest = [0; MOST_VARIABLES];
    for i in 0..s.len(a) {
        raise(&mut highest, &s.get(a, i).exps);
    }
    highest
}

/// In no variable do the degrees of the two add to more than the highest.
pub fn degrees_fit<S: TermStore>(s: &S, a: Poly, b: Poly) -> bool
    requires a { IsPoly (S.state s.now) a }
    requires b { IsPoly (S.state s.now) b }
    ensures { result
        ≡ degrees_fit (polynomial_at (S.state s.now) a) (polynomial_at (S.state s.now) b) }
{
    let (first, second) = (degrees(s, a.slot), degrees(s, b.slot));
    are_low(&exponents_sum(&first, &second))
}

/// The product, or the limit that it meets first: a degree, or else in the first row that meets one the size of a
/// coefficient before the number of terms.
pub fn mul<S: TermStore>(s: &mut S, a: Poly, b: Poly) -> Result<Poly, Limit>
    requires a { IsPoly (S.state s.old) a }
    requires b { IsPoly (S.state s.old) b }
    requires room { ARITH_UNITS ≤ (S.state s.old).spare }
    ensures { Answers (S.state s.old) (S.state s.new) result (bounded_product (polynomial_at
        (S.state s.old) a) (polynomial_at (S.state s.old) b)) }
{
    if !degrees_fit(s, a, b) {
        return Err(Limit::Degree);
    }
    mul_rows(s, a, b)
}

// Contents and primitive parts.
ghost use Rattle.std.specs.Prelude.{◌≡◌, ◌≤◌, ◌<◌, IsTrue, pos, unsigned_abs};
ghost use Rattle.poly_model.specs.Content.{coefficients_gcd, is_negative, signed_by, primitive_part};
ghost use Rattle.poly_model.specs.Reduction.{multiplier_of};
ghost use Rattle.poly_model.specs.Standard.{polynomial_of};
ghost use Rattle.poly_model.specs.declared.limits.TheConstants.{MOST_SIZE, ARITH_UNITS};
ghost use Rattle.term_store.specs.States.{IsLive, list_at};
ghost use Rattle.polynomials.specs.Held.{IsPoly, Gives, polynomial_at};

use crate::change::{Divided, changed};
use crate::poly::Poly;
use edge_num::gcd;
use poly_model::Term;
use term_store::{Slot, TermStore};

/// The greatest common divisor of the coefficients.
fn common_divisor<S: TermStore>(s: &S, q: Slot) -> u128
    requires { IsLive (S.state s.now).lists q.0 }
    ensures { result ≡ coefficients_gcd (polynomial_of (list_at (S.state s.now).lists q.0)) }
{
    let mut divisor = 0;
    let mut i = s.len(q);
    while i > 0 && divisor != 1 {
        i -= 1;
        divisor = gcd(s.get(q, i).coef.unsigned_abs(), divisor);
    }
    divisor
}

fn is_negative(term: &Term) -> bool
    ensures { result ≡ is_negative term.now.coef }
{
    term.coef < 0
}

fn signed(turned: bool, size: u128) -> i128
    requires { size ≤ MOST_SIZE }
    ensures value { result ≡ signed_by turned (pos size) }
    ensures size { unsigned_abs result ≤ MOST_SIZE }
{
    if turned {
        -(size as i128)
    } else {
        size as i128
    }
}

/// The content, with the sign of the first coefficient, and the primitive part; for 0 they are 1 and 0.
pub fn prim<S: TermStore>(s: &mut S, a: Poly) -> (i128, Poly)
    requires a { IsPoly (S.state s.old) a }
    requires room { ARITH_UNITS ≤ (S.state s.old).spare }
    ensures content { result.0 ≡ multiplier_of (polynomial_at (S.state s.old) a) }
    ensures size { unsigned_abs result.0 ≤ MOST_SIZE }
    ensures part { Gives (S.state s.old) (S.state s.new) result.1
        (primitive_part (polynomial_at (S.state s.old) a)) }
{
    if s.len(a.slot) == 0 {
        return (1, Poly { slot: s.fresh() });
    }
    let turned = is_negative(&s.get(a.slot, 0));
    let divisor = common_divisor(s, a.slot);
    let slot = changed(s, &Divided { turned, divisor }, a.slot);
    (signed(turned, divisor), Poly { slot })
}

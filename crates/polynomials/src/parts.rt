// Coefficients, other terms, and products with powers of a variable.
ghost use Rattle.std.specs.Prelude.{◌≡◌, ◌≤◌, ◌<◌, false};
ghost use Rattle.poly_model.specs.Reduction.{is_constant, main_place, main_degree, coefficient_at, without_degree, initial_of, tail_of};
ghost use Rattle.poly_model.specs.Bounded.{bounded_shift};
ghost use Rattle.poly_model.specs.declared.limits.TheConstants.{MOST_VARIABLES, ARITH_UNITS};
ghost use Rattle.polynomials.specs.Held.{IsPoly, Gives, Answers, polynomial_at};

use crate::change::{Cofactor, OtherPower, Raised, Unchanged, changed};
use crate::poly::Poly;
use crate::reads::{class, degree};
use poly_model::{Limit, MOST_DEGREE};
use term_store::TermStore;

/// Another list of the same terms.
pub fn copy<S: TermStore>(s: &mut S, a: Poly) -> Poly
    requires a { IsPoly (S.state s.old) a }
    requires room { ARITH_UNITS ≤ (S.state s.old).spare }
    ensures { Gives (S.state s.old) (S.state s.new) result (polynomial_at (S.state s.old) a) }
{
    Poly {
        slot: changed(s, &Unchanged, a.slot),
    }
}

/// The product with the power `by` of the variable at a place, or the limit Degree.
pub fn shift<S: TermStore>(s: &mut S, a: Poly, var: u8, by: u8) -> Result<Poly, Limit>
    requires a { IsPoly (S.state s.old) a }
    requires var { var < MOST_VARIABLES }
    requires room { ARITH_UNITS ≤ (S.state s.old).spare }
    ensures { Answers (S.state s.old) (S.state s.new) result
        (bounded_shift var by (polynomial_at (S.state s.old) a)) }
{
    if degree(s, a, var) as u16 + by as u16 > MOST_DEGREE as u16 {
        return Err(Limit::Degree);
    }
    let slot = changed(s, &Raised { var, by }, a.slot);
    Ok(Poly { slot })
}

/// The coefficient of the power `e` of the variable at a place.
pub fn coefficient<S: TermStore>(s: &mut S, a: Poly, var: u8, e: u8) -> Poly
    requires a { IsPoly (S.state s.old) a }
    requires var { var < MOST_VARIABLES }
    requires room { ARITH_UNITS ≤ (S.state s.old).spare }
    ensures { Gives (S.state s.old) (S.state s.new) result
        (coefficient_at var e (polynomial_at (S.state s.old) a)) }
{
    let beside = Cofactor { var, power: e };
    Poly {
        slot: changed(s, &beside, a.slot),
    }
}

/// The place of the greatest variable, and the degree in it.
fn leader<S: TermStore>(s: &S, a: Poly) -> (u8, u8)
    requires a { IsPoly (S.state s.now) a }
    requires class { is_constant (polynomial_at (S.state s.now) a) ≡ false }
    ensures place { result.0 ≡ main_place (polynomial_at (S.state s.now) a) }
    ensures degree { result.1 ≡ main_degree (polynomial_at (S.state s.now) a) }
    ensures below { result.0 < MOST_VARIABLES }
{
    match class(s, a) {
        Some(var) => (var, degree(s, a, var)),
        None => unreachable!(),
    }
}

/// The initial: the coefficient of the highest power of the greatest variable.
pub fn initial<S: TermStore>(s: &mut S, a: Poly) -> Poly
    requires a { IsPoly (S.state s.old) a }
    requires class { is_constant (polynomial_at (S.state s.old) a) ≡ false }
    requires room { ARITH_UNITS ≤ (S.state s.old).spare }
    ensures { Gives (S.state s.old) (S.state s.new) result
        (initial_of (polynomial_at (S.state s.old) a)) }
{
    let (var, power) = leader(s, a);
    coefficient(s, a, var, power)
}

/// The tail: the terms without the highest power of the greatest variable.
pub fn tail<S: TermStore>(s: &mut S, a: Poly) -> Poly
    requires a { IsPoly (S.state s.old) a }
    requires class { is_constant (polynomial_at (S.state s.old) a) ≡ false }
    requires room { ARITH_UNITS ≤ (S.state s.old).spare }
    ensures { Gives (S.state s.old) (S.state s.new) result
        (tail_of (polynomial_at (S.state s.old) a)) }
{
    let (var, power) = leader(s, a);
    let others = OtherPower { var, power };
    Poly {
        slot: changed(s, &others, a.slot),
    }
}

// An elementary reduction.
ghost use Rattle.std.specs.Prelude.{◌≡◌, ◌≤◌, ◌<◌, ◌+◌, ℤ, Result, Ok, Err, IfOk, IsTrue, suc, unsigned_abs, false};
ghost use Rattle.poly_model.specs.Polynomial.{Polynomial};
ghost use Rattle.poly_model.specs.Reduction.{class_of, main_place, main_degree, degree_at, reaches, initial_of, factor_of, parts_of};
ghost use Rattle.poly_model.specs.Bounded.{bounded_difference, bounded_product, and_then, bounded_cross, bounded_reduction};
ghost use Rattle.poly_model.specs.declared.limits.TheConstants.{MOST_SIZE, MOST_VARIABLES, ARITH_UNITS, STEP_UNITS, POLY_UNITS};
ghost use Rattle.polynomials.specs.Held.{IsPoly, Gives, Answers, polynomial_at};
ghost use Rattle.pseudo_div.specs.Answers.{Reduces};

use poly_model::Limit;
use polynomials::{Poly, coefficient, degree, degrees_fit, initial, mul, prim, shift, sub};
use term_store::TermStore;

/// What the highest power of the variable in g is cancelled with.
fn factor<S: TermStore>(s: &mut S, g: Poly, f: Poly, var: u8) -> Poly
    requires g { IsPoly (S.state s.old) g }
    requires f { IsPoly (S.state s.old) f }
    requires class { class_of (polynomial_at (S.state s.old) f) ≡ suc var }
    requires reaches { IsTrue (reaches (polynomial_at (S.state s.old) g)
        (polynomial_at (S.state s.old) f)) }
    requires room { ARITH_UNITS + POLY_UNITS ≤ (S.state s.old).spare }
    ensures { Gives (S.state s.old) (S.state s.new) result
        (factor_of (polynomial_at (S.state s.old) g) (polynomial_at (S.state s.old) f)) }
{
    let (high, low) = (degree(s, g, var), degree(s, f, var));
    let beside = coefficient(s, g, var, high);
    match shift(s, beside, var, high - low) {
        Ok(raised) => {
            s.free(beside.slot());
            raised
        }
        Err(_) => unreachable!(),
    }
}

/// The difference of a product and of a second one.
fn less_product<S: TermStore>(s: &mut S, first: Poly, a: Poly, b: Poly) -> Result<Poly, Limit>
    requires first { IsPoly (S.state s.old) first }
    requires a { IsPoly (S.state s.old) a }
    requires b { IsPoly (S.state s.old) b }
    requires room { ARITH_UNITS + POLY_UNITS ≤ (S.state s.old).spare }
    ensures { Answers (S.state s.old) (S.state s.new) result
        (and_then (bounded_product (polynomial_at (S.state s.old) a)
        (polynomial_at (S.state s.old) b))
        (λ second. bounded_difference (polynomial_at (S.state s.old) first) second)) }
{
    match mul(s, a, b) {
        Ok(second) => {
            let outcome = sub(s, first, second);
            s.free(second.slot());
            outcome
        }
        Err(limit) => Err(limit),
    }
}

/// The difference of the products of an elementary reduction, where the degrees of both fit.
fn cross<S: TermStore>(s: &mut S, g: Poly, f: Poly, lead: Poly, beside: Poly) -> Result<Poly, Limit>
    requires g { IsPoly (S.state s.old) g }
    requires f { IsPoly (S.state s.old) f }
    requires lead { IsPoly (S.state s.old) lead }
    requires beside { IsPoly (S.state s.old) beside }
    requires room { ARITH_UNITS + POLY_UNITS + POLY_UNITS ≤ (S.state s.old).spare }
    ensures { Answers (S.state s.old) (S.state s.new) result
        (bounded_cross (polynomial_at (S.state s.old) lead) (polynomial_at (S.state s.old) g)
        (polynomial_at (S.state s.old) beside) (polynomial_at (S.state s.old) f)) }
{
    if !degrees_fit(s, lead, g) || !degrees_fit(s, beside, f) {
        return Err(Limit::Degree);
    }
    match mul(s, lead, g) {
        Ok(first) => {
            let outcome = less_product(s, first, beside, f);
            s.free(first.slot());
            outcome
        }
        Err(limit) => Err(limit),
    }
}

/// The content and the primitive part of that difference.
fn reduce<S: TermStore>(
    s: &mut S,
    g: Poly,
    f: Poly,
    lead: Poly,
    beside: Poly,
) -> Result<(i128, Poly), Limit>
    requires g { IsPoly (S.state s.old) g }
    requires f { IsPoly (S.state s.old) f }
    requires lead { IsPoly (S.state s.old) lead }
    requires beside { IsPoly (S.state s.old) beside }
    requires room { ARITH_UNITS + POLY_UNITS + POLY_UNITS ≤ (S.state s.old).spare }
    ensures size { IfOk result (λ r. unsigned_abs r.0 ≤ MOST_SIZE) }
    ensures answer { Reduces (S.state s.old) (S.state s.new) result
        (and_then (bounded_cross (polynomial_at (S.state s.old) lead)
        (polynomial_at (S.state s.old) g)
        (polynomial_at (S.state s.old) beside) (polynomial_at (S.state s.old) f))
        (λ t. Ok (parts_of t))) }
{
    match cross(s, g, f, lead, beside) {
        Ok(difference) => {
            let parts = prim(s, difference);
            s.free(difference.slot());
            Ok(parts)
        }
        Err(limit) => Err(limit),
    }
}

/// The elementary reduction `I*g - c*x^(e-d)*f = m*r` of g by f in the variable at the place `var`, the greatest of f,
/// where I is the initial of f and d its degree, and e is that of g, and c its coefficient there: m and r, or the limit
/// that is met first.
pub fn red_step<S: TermStore>(s: &mut S, g: Poly, f: Poly, var: u8) -> Result<(i128, Poly), Limit>
    requires g { IsPoly (S.state s.old) g }
    requires f { IsPoly (S.state s.old) f }
    requires class { class_of (polynomial_at (S.state s.old) f) ≡ suc var }
    requires reaches { IsTrue (reaches (polynomial_at (S.state s.old) g)
        (polynomial_at (S.state s.old) f)) }
    requires room { STEP_UNITS ≤ (S.state s.old).spare }
    ensures size { IfOk result (λ r. unsigned_abs r.0 ≤ MOST_SIZE) }
    ensures answer { Reduces (S.state s.old) (S.state s.new) result
        (bounded_reduction (polynomial_at (S.state s.old) g) (polynomial_at (S.state s.old) f)) }
{
    let lead = initial(s, f);
    let beside = factor(s, g, f, var);
    let outcome = reduce(s, g, f, lead, beside);
    s.free(beside.slot());
    s.free(lead.slot());
    outcome
}

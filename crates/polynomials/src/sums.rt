ghost use Rattle.std.specs.Prelude.{◌≡◌, ◌≤◌, ◌<◌, ◌+◌, IsTrue, IfOk, IfErr, length, Ok, Err, true, nat_le, unsigned_abs, pos, ◌≢◌};
ghost use Rattle.poly_model.specs.Polynomial.{IsDescending, poly_sum};
ghost use Rattle.poly_model.specs.Standard.{polynomial_of, are_low};
ghost use Rattle.poly_model.specs.declared.limits.TheConstants.{MOST_VARIABLES, MOST_SIZE, MOST_TERMS, ARITH_UNITS};
ghost use Rattle.term_store.specs.States.{IsLive, list_at};
ghost use Rattle.term_store.specs.Changes.{Makes, Keeps, given_up};
ghost use Rattle.poly_model.specs.Standard.{are_bounded};
ghost use Rattle.poly_model.specs.Bounded.{multiple, bounded_sum, bounded_difference};
ghost use Rattle.poly_model.proofs.Within.{all_low};
ghost use Rattle.polynomials.specs.Held.{Outcome, polynomial_at, IsPoly, Answers, Gives};

use crate::change::{Negated, changed};
use crate::poly::Poly;
use crate::rows::merge;
use poly_model::{Limit, MOST_TERMS};
use term_store::{Slot, TermStore};

/// The sum of two lists within the limits, in a new list.
pub fn sum_in<S: TermStore>(s: &mut S, a: Slot, b: Slot) -> Result<Slot, Limit>
    requires live_a { IsLive (S.state s.old).lists a.0 }
    requires live_b { IsLive (S.state s.old).lists b.0 }
    requires descending_a { IsDescending MOST_VARIABLES (polynomial_of (list_at (S.state
        s.old).lists a.0)) }
    requires descending_b { IsDescending MOST_VARIABLES (polynomial_of (list_at (S.state
        s.old).lists b.0)) }
    requires bounded_a { IsTrue (are_bounded (polynomial_of (list_at (S.state s.old).lists a.0))) }
    requires bounded_b { IsTrue (are_bounded (polynomial_of (list_at (S.state s.old).lists b.0))) }
    requires room { length (list_at (S.state s.old).lists a.0) + length (list_at (S.state
        s.old).lists b.0) < (S.state s.old).spare }
    ensures { Outcome (S.state s.old) (S.state s.new) result (bounded_sum (polynomial_of (list_at
        (S.state s.old).lists a.0)) (polynomial_of (list_at (S.state s.old).lists b.0))) }
{
    let Some(sum) = merge(s, a, b) else {
        return Err(Limit::Bound);
    };
    if s.len(sum) > MOST_TERMS {
        s.free(sum);
        return Err(Limit::Terms);
    }
    Ok(sum)
}

/// The sum, or the limit that it meets first.
pub fn add<S: TermStore>(s: &mut S, a: Poly, b: Poly) -> Result<Poly, Limit>
    requires a { IsPoly (S.state s.old) a }
    requires b { IsPoly (S.state s.old) b }
    requires room { ARITH_UNITS ≤ (S.state s.old).spare }
    ensures { Answers (S.state s.old) (S.state s.new) result
        (bounded_sum (polynomial_at (S.state s.old) a) (polynomial_at (S.state s.old) b)) }
{
    match sum_in(s, a.slot, b.slot) {
        Ok(slot) => Ok(Poly { slot }),
        Err(limit) => Err(limit),
    }
}

/// The difference, or the limit that it meets first.
pub fn sub<S: TermStore>(s: &mut S, a: Poly, b: Poly) -> Result<Poly, Limit>
    requires a { IsPoly (S.state s.old) a }
    requires b { IsPoly (S.state s.old) b }
    requires room { ARITH_UNITS ≤ (S.state s.old).spare }
    ensures { Answers (S.state s.old) (S.state s.new) result
        (bounded_difference (polynomial_at (S.state s.old) a) (polynomial_at (S.state s.old) b)) }
{
    let minus = changed(s, &Negated, b.slot);
    let outcome = sum_in(s, a.slot, minus);
    s.free(minus);
    match outcome {
        Ok(slot) => Ok(Poly { slot }),
        Err(limit) => Err(limit),
    }
}

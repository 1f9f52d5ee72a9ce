ghost use Rattle.std.specs.Prelude.{◌≡◌, ◌≤◌, ◌<◌, ◌+◌, ◌*◌, IsTrue, IfOk, IfErr, length, Ok, Err, true, nat_le, unsigned_abs, pos, ◌≢◌};
ghost use Rattle.poly_model.specs.Polynomial.{IsDescending, poly_sum};
ghost use Rattle.poly_model.specs.Standard.{polynomial_of, are_low};
ghost use Rattle.poly_model.specs.declared.limits.TheConstants.{MOST_VARIABLES, MOST_SIZE, MOST_TERMS, ARITH_UNITS};
ghost use Rattle.term_store.specs.States.{IsLive, list_at};
ghost use Rattle.term_store.specs.Changes.{Makes, Keeps, given_up};
ghost use Rattle.poly_model.specs.Standard.{are_bounded};
ghost use Rattle.poly_model.specs.Bounded.{multiple, bounded_sum, bounded_row, bounded_rows, bounded_product, degrees_fit};
ghost use Rattle.poly_model.proofs.Within.{all_low};
ghost use Rattle.polynomials.specs.Held.{Outcome, polynomial_at, slot_of, IsPoly, Answers, Gives};
ghost use Rattle.polynomials.specs.Sizes.{sizes_of, part_of};

use crate::groups::{add_group, next_rows};
use crate::halves::{is_unlimited, unlimited_product};
use crate::poly::Poly;
use crate::rows::multiple;
use crate::sums::sum_in;
use poly_model::{Limit, Term};
use term_store::{Slot, TermStore};

/// A row of a product, added to the sum so far, which is given up.
fn add_row<S: TermStore>(s: &mut S, factor: &Term, q: Slot, sum: Slot) -> Result<Slot, Limit>
    requires coef { unsigned_abs factor.now.coef ≤ MOST_SIZE }
    requires some { factor.now.coef ≢ pos 0 }
    requires whole { length factor.now.exps ≡ MOST_VARIABLES }
    requires low { IsTrue (are_low factor.now.exps) }
    requires live_q { IsLive (S.state s.old).lists q.0 }
    requires live_sum { IsLive (S.state s.old).lists sum.0 }
    requires q_descending { IsDescending MOST_VARIABLES (polynomial_of (list_at (S.state
        s.old).lists q.0)) }
    requires q_bounded { IsTrue (are_bounded (polynomial_of (list_at (S.state s.old).lists q.0))) }
    requires q_low { IsTrue (all_low (polynomial_of (list_at (S.state s.old).lists q.0))) }
    requires sum_descending { IsDescending MOST_VARIABLES (polynomial_of (list_at (S.state
        s.old).lists sum.0)) }
    requires sum_bounded { IsTrue (are_bounded (polynomial_of (list_at (S.state s.old).lists
        sum.0))) }
    requires room { 2 + length (list_at (S.state s.old).lists q.0) + length (list_at (S.state
        s.old).lists q.0) + length (list_at (S.state s.old).lists sum.0) ≤ (S.state s.old).spare }
    ensures { Outcome (given_up (S.state s.old) sum.0) (S.state s.new) result (bounded_row
        factor.now.exps factor.now.coef (polynomial_of (list_at (S.state s.old).lists q.0))
        (polynomial_of (list_at (S.state s.old).lists sum.0))) }
{
    let Some(row) = multiple(s, factor, q) else {
        s.free(sum);
        return Err(Limit::Bound);
    };
    let outcome = sum_in(s, row, sum);
    s.free(row);
    s.free(sum);
    outcome
}

/// The next rows of a product, added to the sum so far, which is given up: one, or more that meet no limit.
fn add_rows<S: TermStore>(
    s: &mut S,
    a: Poly,
    from: usize,
    rows: usize,
    b: Poly,
    sum: Slot,
) -> Result<Slot, Limit>
    requires a { IsPoly (S.state s.old) a }
    requires b { IsPoly (S.state s.old) b }
    requires live { IsLive (S.state s.old).lists sum.0 }
    requires some { 0 < rows }
    requires within { from + rows ≤ length (list_at (S.state s.old).lists (slot_of a)) }
    requires descending { IsDescending MOST_VARIABLES (polynomial_of (list_at (S.state s.old).lists
        sum.0)) }
    requires bounded { IsTrue (are_bounded (polynomial_of (list_at (S.state s.old).lists sum.0))) }
    requires short { length (list_at (S.state s.old).lists sum.0) ≤ MOST_TERMS }
    requires terms { 1 < rows → length (list_at (S.state s.old).lists sum.0)
        + rows * length (list_at (S.state s.old).lists (slot_of b)) ≤ MOST_TERMS }
    requires sizes { 1 < rows → sizes_of (polynomial_of (list_at (S.state s.old).lists sum.0))
        + sizes_of (part_of (list_at (S.state s.old).lists (slot_of a)) from rows)
        * sizes_of (polynomial_at (S.state s.old) b) ≤ MOST_SIZE }
    requires room { 8 * MOST_TERMS ≤ (S.state s.old).spare }
    ensures { Outcome (given_up (S.state s.old) sum.0) (S.state s.new) result (bounded_rows
        (part_of (list_at (S.state s.old).lists (slot_of a)) from rows)
        (polynomial_at (S.state s.old) b)
        (polynomial_of (list_at (S.state s.old).lists sum.0))) }
{
    if rows == 1 {
        let factor = s.get(a.slot, from);
        return add_row(s, &factor, b.slot, sum);
    }
    Ok(add_group(s, a, from, rows, b, sum))
}

/// The rows of a product whose degrees fit, added in turn: one by one, or together where they meet no limit.
fn rows_in_turn<S: TermStore>(s: &mut S, a: Poly, b: Poly) -> Result<Poly, Limit>
    requires a { IsPoly (S.state s.old) a }
    requires b { IsPoly (S.state s.old) b }
    requires room { ARITH_UNITS ≤ (S.state s.old).spare }
    requires fit { degrees_fit (polynomial_at (S.state s.old) a) (polynomial_at (S.state s.old) b)
        ≡ true }
    ensures { Answers (S.state s.old) (S.state s.new) result (bounded_product (polynomial_at
        (S.state s.old) a) (polynomial_at (S.state s.old) b)) }
{
    let count = s.len(a.slot);
    let mut sum = s.fresh();
    let mut i = 0;
    while i < count {
        let rows = next_rows(s, a.slot, i, b.slot, sum);
        match add_rows(s, a, i, rows, b, sum) {
            Ok(next) => sum = next,
            Err(limit) => return Err(limit),
        }
        i += rows;
    }
    Ok(Poly { slot: sum })
}

/// The product where the degrees fit, or the limit that its rows meet first.
pub fn mul_rows<S: TermStore>(s: &mut S, a: Poly, b: Poly) -> Result<Poly, Limit>
    requires a { IsPoly (S.state s.old) a }
    requires b { IsPoly (S.state s.old) b }
    requires room { ARITH_UNITS ≤ (S.state s.old).spare }
    requires fit { degrees_fit (polynomial_at (S.state s.old) a) (polynomial_at (S.state s.old) b)
        ≡ true }
    ensures { Answers (S.state s.old) (S.state s.new) result (bounded_product (polynomial_at
        (S.state s.old) a) (polynomial_at (S.state s.old) b)) }
{
    if is_unlimited(s, a.slot, b.slot) {
        let slot = unlimited_product(s, a, b);
        return Ok(Poly { slot });
    }
    rows_in_turn(s, a, b)
}

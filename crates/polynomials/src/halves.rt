// Products that meet no limit in whatever order their rows are added.
ghost use Rattle.std.specs.Prelude.{◌≡◌, ◌≤◌, ◌<◌, ◌+◌, ◌*◌, IsTrue, IfSome, length};
ghost use Rattle.poly_model.specs.Polynomial.{poly_product};
ghost use Rattle.poly_model.specs.Standard.{polynomial_of};
ghost use Rattle.poly_model.specs.declared.limits.TheConstants.{MOST_SIZE, MOST_TERMS, ARITH_UNITS};
ghost use Rattle.term_store.specs.States.{IsLive, list_at};
ghost use Rattle.term_store.specs.Changes.{Makes};
ghost use Rattle.polynomials.specs.Held.{IsPoly, polynomial_at, slot_of};
ghost use Rattle.polynomials.specs.Sizes.{sizes_of, part_of};

use crate::poly::Poly;
use crate::rows::{merge, multiple};
use poly_model::{MOST_SIZE, MOST_TERMS, Term};
use term_store::{Slot, TermStore};

/// The sum of the sizes of the coefficients, where it has at most 128 bits.
pub fn sizes(terms: &[Term]) -> Option<u128>
    ensures { IfSome result (λ n. n ≡ sizes_of (polynomial_of terms.now)) }
{
    let mut sum: u128 = 0;
    for term in terms {
        sum = sum.checked_add(term.coef.unsigned_abs())?;
    }
    Some(sum)
}

/// The products of a coefficient of the one and one of the other are so few, and so small together, that no sum of them
/// meets a limit.
pub fn is_unlimited<S: TermStore>(s: &S, a: Slot, b: Slot) -> bool
    requires live_a { IsLive (S.state s.now).lists a.0 }
    requires live_b { IsLive (S.state s.now).lists b.0 }
    requires short_a { length (list_at (S.state s.now).lists a.0) ≤ MOST_TERMS }
    requires short_b { length (list_at (S.state s.now).lists b.0) ≤ MOST_TERMS }
    ensures terms { IsTrue result → length (list_at (S.state s.now).lists a.0)
        * length (list_at (S.state s.now).lists b.0) ≤ MOST_TERMS }
    ensures sizes { IsTrue result
        → sizes_of (polynomial_of (list_at (S.state s.now).lists a.0))
        * sizes_of (polynomial_of (list_at (S.state s.now).lists b.0)) ≤ MOST_SIZE }
{
    if s.len(a) * s.len(b) > MOST_TERMS {
        return false;
    }
    let (Some(first), Some(second)) = (sizes(s.terms(a)), sizes(s.terms(b))) else {
        return false;
    };
    match first.checked_mul(second) {
        Some(size) => size <= MOST_SIZE,
        None => false,
    }
}

/// The product of some terms of a with b, in a new list: that of the first half of them, added to that of the others.
pub fn by_halves<S: TermStore>(s: &mut S, a: Poly, from: usize, count: usize, b: Poly) -> Slot
    requires a { IsPoly (S.state s.old) a }
    requires b { IsPoly (S.state s.old) b }
    requires some { 0 < count }
    requires within { from + count ≤ length (list_at (S.state s.old).lists (slot_of a)) }
    requires sizes { sizes_of (part_of (list_at (S.state s.old).lists (slot_of a)) from count)
        * sizes_of (polynomial_at (S.state s.old) b) ≤ MOST_SIZE }
    requires room { 3 * (count * length (polynomial_at (S.state s.old) b) + count)
        ≤ (S.state s.old).spare }
    ensures made { Makes (S.state s.old) (S.state s.new) result.0 }
    ensures value { polynomial_of (list_at (S.state s.new).lists result.0)
        ≡ poly_product (part_of (list_at (S.state s.old).lists (slot_of a)) from count)
        (polynomial_at (S.state s.old) b) }
{
    if count == 1 {
        let factor = s.get(a.slot, from);
        return match multiple(s, &factor, b.slot) {
            Some(row) => row,
            None => unreachable!(),
        };
    }
    let half = count / 2;
    let first = by_halves(s, a, from, half, b);
    let second = by_halves(s, a, from + half, count - half, b);
    let sum = match merge(s, first, second) {
        Some(sum) => sum,
        None => unreachable!(),
    };
    s.free(second);
    s.free(first);
    sum
}

/// The product of all terms of a with b, in a new list.
pub fn rows_of<S: TermStore>(s: &mut S, a: Poly, b: Poly) -> Slot
    requires a { IsPoly (S.state s.old) a }
    requires b { IsPoly (S.state s.old) b }
    requires terms { length (polynomial_at (S.state s.old) a)
        * length (polynomial_at (S.state s.old) b) ≤ MOST_TERMS }
    requires sizes { sizes_of (polynomial_at (S.state s.old) a)
        * sizes_of (polynomial_at (S.state s.old) b) ≤ MOST_SIZE }
    requires room { 6 * MOST_TERMS ≤ (S.state s.old).spare }
    ensures made { Makes (S.state s.old) (S.state s.new) result.0 }
    ensures value { polynomial_of (list_at (S.state s.new).lists result.0)
        ≡ poly_product (polynomial_at (S.state s.old) a) (polynomial_at (S.state s.old) b) }
{
    let count = s.len(a.slot);
    if count == 0 {
        return s.fresh();
    }
    by_halves(s, a, 0, count, b)
}

/// The product where no limit is met, in a new list. The rows are those of the shorter factor.
pub fn unlimited_product<S: TermStore>(s: &mut S, a: Poly, b: Poly) -> Slot
    requires a { IsPoly (S.state s.old) a }
    requires b { IsPoly (S.state s.old) b }
    requires terms { length (polynomial_at (S.state s.old) a)
        * length (polynomial_at (S.state s.old) b) ≤ MOST_TERMS }
    requires sizes { sizes_of (polynomial_at (S.state s.old) a)
        * sizes_of (polynomial_at (S.state s.old) b) ≤ MOST_SIZE }
    requires room { ARITH_UNITS ≤ (S.state s.old).spare }
    ensures made { Makes (S.state s.old) (S.state s.new) result.0 }
    ensures value { polynomial_of (list_at (S.state s.new).lists result.0)
        ≡ poly_product (polynomial_at (S.state s.old) a) (polynomial_at (S.state s.old) b) }
{
    if s.len(a.slot) <= s.len(b.slot) {
        rows_of(s, a, b)
    } else {
        rows_of(s, b, a)
    }
}

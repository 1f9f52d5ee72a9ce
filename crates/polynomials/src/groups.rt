// Rows of a product that meet no limit on the sum so far in whatever order they are added, added together.
ghost use Rattle.std.specs.Prelude.{◌≡◌, ◌≤◌, ◌<◌, ◌+◌, ◌*◌, IsTrue, length};
ghost use Rattle.poly_model.specs.Polynomial.{IsDescending, poly_sum, poly_product};
ghost use Rattle.poly_model.specs.Standard.{polynomial_of};
ghost use Rattle.poly_model.specs.declared.limits.TheConstants.{MOST_VARIABLES, MOST_SIZE, MOST_TERMS};
ghost use Rattle.term_store.specs.States.{IsLive, list_at};
ghost use Rattle.term_store.specs.Changes.{Makes, given_up};
ghost use Rattle.polynomials.specs.Held.{IsPoly, Gives, polynomial_at, slot_of};
ghost use Rattle.polynomials.specs.Sizes.{sizes_of, part_of};

use crate::halves::{by_halves, rows_of, sizes};
use crate::poly::Poly;
use crate::rows::merge;
use poly_model::{MOST_SIZE, MOST_TERMS};
use term_store::{Slot, TermStore};

/// The product of two sizes and a third one together are no more than the greatest size.
fn are_small(first: u128, second: u128, third: u128) -> bool
    ensures { IsTrue result → third + first * second ≤ MOST_SIZE }
{
    match first.checked_mul(second) {
        Some(size) => size <= MOST_SIZE && third <= MOST_SIZE - size,
        None => false,
    }
}

/// The products of the coefficients of some terms of a with those of b are so small that no sum of them with the sum so far
/// passes the greatest size.
fn stays_small<S: TermStore>(s: &S, a: Slot, from: usize, rows: usize, b: Slot, sum: Slot) -> bool
    requires live_a { IsLive (S.state s.now).lists a.0 }
    requires live_b { IsLive (S.state s.now).lists b.0 }
    requires live_sum { IsLive (S.state s.now).lists sum.0 }
    requires within { from + rows ≤ length (list_at (S.state s.now).lists a.0) }
    ensures { IsTrue result → sizes_of (polynomial_of (list_at (S.state s.now).lists sum.0))
        + sizes_of (part_of (list_at (S.state s.now).lists a.0) from rows)
        * sizes_of (polynomial_of (list_at (S.state s.now).lists b.0)) ≤ MOST_SIZE }
{
    let part = &s.terms(a)[from..from + rows];
    let (Some(first), Some(second), Some(third)) = (
        sizes(part),
        sizes(s.terms(b)),
        sizes(s.terms(sum)),
    ) else {
        return false;
    };
    are_small(first, second, third)
}

/// So many of the next rows as meet no limit on the sum so far, in whatever order they are added; 1 where that is not known of
/// more.
pub fn next_rows<S: TermStore>(s: &S, a: Slot, from: usize, b: Slot, sum: Slot) -> usize
    requires live_a { IsLive (S.state s.now).lists a.0 }
    requires live_b { IsLive (S.state s.now).lists b.0 }
    requires live_sum { IsLive (S.state s.now).lists sum.0 }
    requires below { from < length (list_at (S.state s.now).lists a.0) }
    requires short { length (list_at (S.state s.now).lists sum.0) ≤ MOST_TERMS }
    ensures some { 0 < result }
    ensures within { from + result ≤ length (list_at (S.state s.now).lists a.0) }
    ensures terms { 1 < result → length (list_at (S.state s.now).lists sum.0)
        + result * length (list_at (S.state s.now).lists b.0) ≤ MOST_TERMS }
    ensures sizes { 1 < result
        → sizes_of (polynomial_of (list_at (S.state s.now).lists sum.0))
        + sizes_of (part_of (list_at (S.state s.now).lists a.0) from result)
        * sizes_of (polynomial_of (list_at (S.state s.now).lists b.0)) ≤ MOST_SIZE }
{
    let width = s.len(b);
    if width == 0 {
        return 1;
    }
    let room = (MOST_TERMS - s.len(sum)) / width;
    let rows = room.min(s.len(a) - from);
    if rows > 1 && stays_small(s, a, from, rows, b, sum) {
        return rows;
    }
    1
}

/// A copy of some terms of a polynomial.
fn copy_part<S: TermStore>(s: &mut S, a: Poly, from: usize, count: usize) -> Poly
    requires a { IsPoly (S.state s.old) a }
    requires within { from + count ≤ length (list_at (S.state s.old).lists (slot_of a)) }
    requires room { count < (S.state s.old).spare }
    ensures { Gives (S.state s.old) (S.state s.new) result
        (part_of (list_at (S.state s.old).lists (slot_of a)) from count) }
{
    let out = s.fresh();
    for i in from..from + count {
        let term = s.get(a.slot, i);
        s.push(out, term);
    }
    Poly { slot: out }
}

/// The product of some terms of a with b, in a new list. The rows are those of the shorter factor.
fn group_of<S: TermStore>(s: &mut S, a: Poly, from: usize, rows: usize, b: Poly) -> Slot
    requires a { IsPoly (S.state s.old) a }
    requires b { IsPoly (S.state s.old) b }
    requires some { 0 < rows }
    requires within { from + rows ≤ length (list_at (S.state s.old).lists (slot_of a)) }
    requires terms { rows * length (polynomial_at (S.state s.old) b) ≤ MOST_TERMS }
    requires sizes { sizes_of (part_of (list_at (S.state s.old).lists (slot_of a)) from rows)
        * sizes_of (polynomial_at (S.state s.old) b) ≤ MOST_SIZE }
    requires room { 8 * MOST_TERMS ≤ (S.state s.old).spare }
    ensures made { Makes (S.state s.old) (S.state s.new) result.0 }
    ensures value { polynomial_of (list_at (S.state s.new).lists result.0)
        ≡ poly_product (part_of (list_at (S.state s.old).lists (slot_of a)) from rows)
        (polynomial_at (S.state s.old) b) }
{
    if rows <= s.len(b.slot) {
        return by_halves(s, a, from, rows, b);
    }
    let part = copy_part(s, a, from, rows);
    let group = rows_of(s, b, part);
    s.free(part.slot);
    group
}

/// Rows of a product that meet no limit, added to the sum so far, which is given up.
pub fn add_group<S: TermStore>(
    s: &mut S,
    a: Poly,
    from: usize,
    rows: usize,
    b: Poly,
    sum: Slot,
) -> Slot
    requires a { IsPoly (S.state s.old) a }
    requires b { IsPoly (S.state s.old) b }
    requires live { IsLive (S.state s.old).lists sum.0 }
    requires some { 0 < rows }
    requires within { from + rows ≤ length (list_at (S.state s.old).lists (slot_of a)) }
    requires descending { IsDescending MOST_VARIABLES (polynomial_of (list_at (S.state s.old).lists
        sum.0)) }
    requires terms { length (list_at (S.state s.old).lists sum.0)
        + rows * length (list_at (S.state s.old).lists (slot_of b)) ≤ MOST_TERMS }
    requires sizes { sizes_of (polynomial_of (list_at (S.state s.old).lists sum.0))
        + sizes_of (part_of (list_at (S.state s.old).lists (slot_of a)) from rows)
        * sizes_of (polynomial_at (S.state s.old) b) ≤ MOST_SIZE }
    requires room { 8 * MOST_TERMS ≤ (S.state s.old).spare }
    ensures made { Makes (given_up (S.state s.old) sum.0) (S.state s.new) result.0 }
    ensures value { polynomial_of (list_at (S.state s.new).lists result.0)
        ≡ poly_sum (poly_product (part_of (list_at (S.state s.old).lists (slot_of a)) from rows)
        (polynomial_at (S.state s.old) b))
        (polynomial_of (list_at (S.state s.old).lists sum.0)) }
{
    let group = group_of(s, a, from, rows, b);
    let next = match merge(s, group, sum) {
        Some(next) => next,
        None => unreachable!(),
    };
    s.free(group);
    s.free(sum);
    next
}

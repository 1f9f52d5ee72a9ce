ghost use Rattle.std.specs.Prelude.{◌≡◌, ◌≢◌, ◌≤◌, ◌<◌, ◌+◌, ◌%◌, ◌++◌, ◌∷◌, [], drop, IsTrue, IfSome, SomeIff, ◌^◌, IfNone, IfOk, IfErr, OnSome, length, get_or, Ok, Err, Some, false, unsigned_abs, ◌+ℤ◌, ◌*ℤ◌};
ghost use Rattle.polynomials.specs.Summed.{summed};
ghost use Rattle.poly_model.specs.Polynomial.{IsDescending, poly_sum, monomial_cmp};
ghost use Rattle.poly_model.specs.Standard.{polynomial_of, are_low};
ghost use Rattle.poly_model.specs.declared.term.Term.{Term};
ghost use Rattle.poly_model.specs.declared.limits.TheConstants.{MOST_VARIABLES, MOST_SIZE};
ghost use Rattle.std.specs.FinMap.{insert};
ghost use Rattle.term_store.specs.States.{IsLive, list_at};
ghost use Rattle.term_store.specs.Changes.{Makes, Keeps, Extends};
ghost use Rattle.poly_model.specs.Standard.{are_bounded};
ghost use Rattle.poly_model.specs.Bounded.{multiple, bounded_row};
ghost use Rattle.poly_model.proofs.Within.{all_low};
ghost use Rattle.poly_model.specs.Reduction.{class_of};

use crate::exponents::compare_below;
use crate::reads::end_of_used;
use edge_num::{add_in, mul_in};
use poly_model::{MOST_VARIABLES, Term, exponents_sum};
use std::cmp::Ordering;
use term_store::{Slot, TermStore};

/// The number has 64 bits.
fn is_word(a: i128) -> bool
    ensures { IsTrue result → unsigned_abs a ≤ 2 ^ 63 }
{
    i64::MIN as i128 <= a && a <= i64::MAX as i128
}

/// The product of two coefficients; None exactly where it passes the greatest size. One of two numbers of 64 bits never
/// does.
fn product_in(a: i128, b: i128) -> Option<i128>
    requires a { unsigned_abs a ≤ MOST_SIZE }
    requires b { unsigned_abs b ≤ MOST_SIZE }
    ensures { SomeIff result (unsigned_abs (a *ℤ b) ≤ MOST_SIZE) (a *ℤ b) }
{
    if is_word(a) && is_word(b) {
        return Some(a * b);
    }
    mul_in(a, b)
}

/// One term times a list, in a new list; None exactly where a coefficient passes its size.
pub fn multiple<S: TermStore>(s: &mut S, factor: &Term, q: Slot) -> Option<Slot>
    requires coef { unsigned_abs factor.now.coef ≤ MOST_SIZE }
    requires low { IsTrue (are_low factor.now.exps) }
    requires live { IsLive (S.state s.old).lists q.0 }
    requires bounded { IsTrue (are_bounded (polynomial_of (list_at (S.state s.old).lists q.0))) }
    requires lows { IsTrue (all_low (polynomial_of (list_at (S.state s.old).lists q.0))) }
    requires room { length (list_at (S.state s.old).lists q.0) < (S.state s.old).spare }
    ensures made { IfSome result (λ r. Makes (S.state s.old) (S.state s.new) r.0) }
    ensures value { IfSome result (λ r. polynomial_of (list_at (S.state s.new).lists r.0)
        ≡ multiple factor.now.exps factor.now.coef (polynomial_of (list_at (S.state s.old).lists
        q.0))) }
    ensures bounded { IfSome result (λ r. IsTrue (are_bounded (multiple factor.now.exps
        factor.now.coef (polynomial_of (list_at (S.state s.old).lists q.0))))) }
    ensures passes { IfNone result (are_bounded (multiple factor.now.exps factor.now.coef
        (polynomial_of (list_at (S.state s.old).lists q.0))) ≡ false) }
    ensures kept { IfNone result (Keeps (S.state s.old) (S.state s.new)) }
{
    let count = s.len(q);
    let out = s.fresh();
    for i in 0..count {
        let term = s.get(q, i);
        let Some(product) = product_in(factor.coef, term.coef) else {
            s.free(out);
            return None;
        };
        let sum = exponents_sum(&factor.exps, &term.exps);
        s.push(
            out,
            Term {
                coef: product,
                exps: sum,
            },
        );
    }
    Some(out)
}

/// Appends the rest of a list to the newest one.
fn copy_rest<S: TermStore>(s: &mut S, out: Slot, q: Slot, from: usize)
    requires newest { (S.state s.old).newest ≡ Some out.0 }
    requires new { IsLive (S.state s.old).lists out.0 }
    requires live { IsLive (S.state s.old).lists q.0 }
    requires apart { q.0 ≢ out.0 }
    requires from { from ≤ length (list_at (S.state s.old).lists q.0) }
    requires room { length (list_at (S.state s.old).lists q.0) ≤ (S.state s.old).spare + from }
    ensures { Extends (S.state s.old) (S.state s.new) out.0 (drop from (list_at (S.state
        s.old).lists q.0)) }
{
    let count = s.len(q);
    for i in from..count {
        let term = s.get(q, i);
        s.push(out, term);
    }
}

/// Appends the sum of two terms with one monomial to the newest list, unless it is 0; false exactly where it passes its
/// size.
#[inline(always)]
fn push_sum<S: TermStore>(s: &mut S, out: Slot, x: &Term, y: &Term) -> bool
    requires newest { (S.state s.old).newest ≡ Some out.0 }
    requires new { IsLive (S.state s.old).lists out.0 }
    requires room { 0 < (S.state s.old).spare }
    requires x { unsigned_abs x.now.coef ≤ MOST_SIZE }
    requires y { unsigned_abs y.now.coef ≤ MOST_SIZE }
    ensures added { IsTrue result
        → (unsigned_abs (x.now.coef +ℤ y.now.coef) ≤ MOST_SIZE)
        × Extends (S.state s.old) (S.state s.new) out.0 (summed x.now y.now) }
    ensures passes { result ≡ false → (unsigned_abs (x.now.coef +ℤ y.now.coef) ≤ MOST_SIZE
        → ⊥) × (S.state s.new ≡ S.state s.old) }
{
    let Some(coef) = add_in(x.coef, y.coef) else {
        return false;
    };
    if coef != 0 {
        s.push(out, Term { coef, exps: y.exps });
    }
    true
}

/// A place from which on no term of a list has a variable.
fn end_of<S: TermStore>(s: &S, a: Slot) -> usize
    requires live { IsLive (S.state s.now).lists a.0 }
    requires descending { IsDescending MOST_VARIABLES (polynomial_of (list_at (S.state s.now).lists
        a.0)) }
    ensures within { result ≤ MOST_VARIABLES }
    ensures whole { result % 8 ≡ 0 }
    ensures used { class_of (polynomial_of (list_at (S.state s.now).lists a.0)) ≤ result }
{
    if s.len(a) == 0 {
        return 0;
    }
    end_of_used(&s.get(a, 0).exps)
}

/// A place from which on no term of two lists has a variable.
fn end_of_both<S: TermStore>(s: &S, a: Slot, b: Slot) -> usize
    requires live_a { IsLive (S.state s.now).lists a.0 }
    requires live_b { IsLive (S.state s.now).lists b.0 }
    requires descending_a { IsDescending MOST_VARIABLES (polynomial_of (list_at (S.state
        s.now).lists a.0)) }
    requires descending_b { IsDescending MOST_VARIABLES (polynomial_of (list_at (S.state
        s.now).lists b.0)) }
    ensures within { result ≤ MOST_VARIABLES }
    ensures whole { result % 8 ≡ 0 }
    ensures first { class_of (polynomial_of (list_at (S.state s.now).lists a.0)) ≤ result }
    ensures second { class_of (polynomial_of (list_at (S.state s.now).lists b.0)) ≤ result }
{
    let (first, second) = (end_of(s, a), end_of(s, b));
    if first < second { second } else { first }
}

/// How the monomials at a place of each of two lists compare, where they stand. No term has a variable from the place `end` on.
#[inline(always)]
fn compare_at<S: TermStore>(s: &S, a: Slot, i: usize, b: Slot, j: usize, end: usize) -> Ordering
    requires live_a { IsLive (S.state s.now).lists a.0 }
    requires live_b { IsLive (S.state s.now).lists b.0 }
    requires below_a { i < length (list_at (S.state s.now).lists a.0) }
    requires below_b { j < length (list_at (S.state s.now).lists b.0) }
    requires within { end ≤ MOST_VARIABLES }
    requires whole { end % 8 ≡ 0 }
    requires used_a { class_of (polynomial_of (list_at (S.state s.now).lists a.0)) ≤ end }
    requires used_b { class_of (polynomial_of (list_at (S.state s.now).lists b.0)) ≤ end }
    ensures { (x y : Term) → x ≡ get_or (list_at (S.state s.now).lists a.0) i x
        → y ≡ get_or (list_at (S.state s.now).lists b.0) j y → result
        ≡ monomial_cmp x.exps y.exps }
{
    compare_below(&s.terms(a)[i].exps, &s.terms(b)[j].exps, end)
}

/// The sum of two lists, in a new list; None exactly where a coefficient passes its size.
pub fn merge<S: TermStore>(s: &mut S, a: Slot, b: Slot) -> Option<Slot>
    requires live_a { IsLive (S.state s.old).lists a.0 }
    requires live_b { IsLive (S.state s.old).lists b.0 }
    requires descending_a { IsDescending MOST_VARIABLES (polynomial_of (list_at (S.state
        s.old).lists a.0)) }
    requires descending_b { IsDescending MOST_VARIABLES (polynomial_of (list_at (S.state
        s.old).lists b.0)) }
    requires bounded_a { IsTrue (are_bounded (polynomial_of (list_at (S.state s.old).lists a.0))) }
    requires bounded_b { IsTrue (are_bounded (polynomial_of (list_at (S.state s.old).lists b.0))) }
    requires room { length (list_at (S.state s.old).lists a.0) + length (list_at (S.state
        s.old).lists b.0) < (S.state s.old).spare }
    ensures made { IfSome result (λ r. Makes (S.state s.old) (S.state s.new) r.0) }
    ensures value { IfSome result (λ r. polynomial_of (list_at (S.state s.new).lists r.0)
        ≡ poly_sum (polynomial_of (list_at (S.state s.old).lists a.0)) (polynomial_of (list_at
        (S.state s.old).lists b.0))) }
    ensures bounded { IfSome result (λ r. IsTrue (are_bounded (poly_sum (polynomial_of (list_at
        (S.state s.old).lists a.0)) (polynomial_of (list_at (S.state s.old).lists b.0))))) }
    ensures passes { IfNone result (are_bounded (poly_sum (polynomial_of (list_at (S.state
        s.old).lists a.0)) (polynomial_of (list_at (S.state s.old).lists b.0))) ≡ false) }
    ensures kept { IfNone result (Keeps (S.state s.old) (S.state s.new)) }
{
    let (end_a, end_b) = (s.len(a), s.len(b));
    let end = end_of_both(s, a, b);
    let out = s.fresh();
    let (mut i, mut j) = (0, 0);
    while i < end_a && j < end_b {
        match compare_at(s, a, i, b, j, end) {
            Ordering::Greater => {
                let x = s.get(a, i);
                s.push(out, x);
                i += 1;
            }
            Ordering::Less => {
                let y = s.get(b, j);
                s.push(out, y);
                j += 1;
            }
            Ordering::Equal => {
                let (x, y) = (s.get(a, i), s.get(b, j));
                if !push_sum(s, out, &x, &y) {
                    s.free(out);
                    return None;
                }
                i += 1;
                j += 1;
            }
        }
    }
    copy_rest(s, out, a, i);
    copy_rest(s, out, b, j);
    Some(out)
}

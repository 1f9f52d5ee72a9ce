// What is read off a polynomial.
ghost use Rattle.std.specs.Prelude.{◌≡◌, ◌<◌, ◌≤◌, ◌%◌, drop};
ghost use Rattle.poly_model.specs.Reduction.{same, monomial_class, class_of, degree_at};
ghost use Rattle.poly_model.specs.declared.limits.TheConstants.{MOST_VARIABLES};
ghost use Rattle.polynomials.specs.Held.{IsPoly, polynomial_at, class_number};

use crate::poly::Poly;
use poly_model::{MOST_VARIABLES, eight_exponents};
use term_store::TermStore;

/// The two are the same polynomial.
pub fn same<S: TermStore>(s: &S, a: Poly, b: Poly) -> bool
    requires a { IsPoly (S.state s.now) a }
    requires b { IsPoly (S.state s.now) b }
    ensures { result ≡ same (polynomial_at (S.state s.now) a) (polynomial_at (S.state s.now) b) }
{
    let count = s.len(a.slot);
    if count != s.len(b.slot) {
        return false;
    }
    for i in 0..count {
        if s.get(a.slot, i) != s.get(b.slot, i) {
            return false;
        }
    }
    true
}

/// The end of the eight places that have the greatest variable of a monomial; 0 where it has none.
pub fn end_of_used(exps: &[u8; MOST_VARIABLES]) -> usize
    ensures within { result ≤ MOST_VARIABLES }
    ensures whole { result % 8 ≡ 0 }
    ensures unused { monomial_class (drop result exps.now) ≡ 0 }
{
    let mut end = MOST_VARIABLES;
    while end > 0 && eight_exponents(exps, end - 8) == 0 {
        end -= 8;
    }
    end
}

/// The place of the greatest variable of a monomial; None where it has none.
pub fn greatest(exps: &[u8; MOST_VARIABLES]) -> Option<u8>
    ensures { class_number result ≡ monomial_class exps.now }
{
    let mut i = end_of_used(exps);
    while i > 0 {
        i -= 1;
        if exps[i] != 0 {
            return Some(i as u8);
        }
    }
    None
}

/// The place of the greatest variable; None exactly for a constant.
pub fn class<S: TermStore>(s: &S, a: Poly) -> Option<u8>
    requires { IsPoly (S.state s.now) a }
    ensures { class_number result ≡ class_of (polynomial_at (S.state s.now) a) }
{
    if s.len(a.slot) == 0 {
        return None;
    }
    greatest(&s.get(a.slot, 0).exps)
}

/// The degree in the variable at a place.
pub fn degree<S: TermStore>(s: &S, a: Poly, var: u8) -> u8
    requires a { IsPoly (S.state s.now) a }
    requires var { var < MOST_VARIABLES }
    ensures { result ≡ degree_at var (polynomial_at (S.state s.now) a) }
{
    let mut highest = 0;
    for i in 0..s.len(a.slot) {
        let exponent = s.get(a.slot, i).exps[var as usize];
        if highest < exponent {
            highest = exponent;
        }
    }
    highest
}

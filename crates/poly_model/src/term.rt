ghost use Rattle.std.specs.Prelude.{◌≡◌, ◌+◌, ◌≤◌, IsTrue, take, drop};
ghost use Rattle.std.specs.Simd.Lanes.{number_l};
ghost use Rattle.poly_model.specs.declared.limits.TheConstants.{MOST_VARIABLES};
ghost use Rattle.poly_model.specs.Polynomial.{exponents_sum, monomial_cmp};
ghost use Rattle.poly_model.specs.Standard.{entry_of, polynomial_of, are_low, is_within, is_above, are_descending, is_standard};

use crate::limits::{MOST_DEGREE, MOST_SIZE, MOST_TERMS, MOST_VARIABLES};
use std::cmp::Ordering;

/// A coefficient, and the exponents of the variables from the least to the greatest.
#[derive(Clone, Copy, Debug, PartialEq, Eq)]
pub struct Term {
    pub coef: i128,
    pub exps: [u8; MOST_VARIABLES],
}

/// The eight exponents from a place on as one number, in which the last weighs most.
pub fn eight_exponents(exps: &[u8; MOST_VARIABLES], i: usize) -> u64
    requires { i + 8 ≤ MOST_VARIABLES }
    ensures { result ≡ number_l 256 (take 8 (drop i exps.now)) }
{
    u64::from_le_bytes([
        exps[i],
        exps[i + 1],
        exps[i + 2],
        exps[i + 3],
        exps[i + 4],
        exps[i + 5],
        exps[i + 6],
        exps[i + 7],
    ])
}

/// Compares two monomials by the exponents of the greatest variable, the last, then by those of the next. Eight are compared
/// at a time.
pub fn compare_monomials(a: &[u8; MOST_VARIABLES], b: &[u8; MOST_VARIABLES]) -> Ordering
    ensures { result ≡ monomial_cmp a.now b.now }
{
    let mut i = MOST_VARIABLES;
    while i > 0 {
        i -= 8;
        let (x, y) = (eight_exponents(a, i), eight_exponents(b, i));
        if x != y {
            return x.cmp(&y);
        }
    }
    Ordering::Equal
}

/// No exponent passes the highest degree.
pub fn are_low(exps: &[u8; MOST_VARIABLES]) -> bool
    ensures { result ≡ are_low exps.now }
{
    let mut highest = 0;
    for e in exps {
        highest = highest.max(*e);
    }
    highest <= MOST_DEGREE
}

/// The exponents of a product of two monomials.
pub fn exponents_sum(a: &[u8; MOST_VARIABLES], b: &[u8; MOST_VARIABLES]) -> [u8; MOST_VARIABLES]
    requires a { IsTrue (are_low a.now) }
    requires b { IsTrue (are_low b.now) }
    ensures { result ≡ exponents_sum a.now b.now }
{
    let mut sum = *a;
    for i in 0..MOST_VARIABLES {
        sum[i] += b[i];
    }
    sum
}

impl Term {
    fn is_within(&self) -> bool
        ensures { result ≡ is_within (entry_of self.now) }
    {
        let size = self.coef.unsigned_abs();
        0 < size && size <= MOST_SIZE && are_low(&self.exps)
    }

    fn is_above(&self, rest: &[Term]) -> bool
        ensures { result ≡ is_above (entry_of self.now) (polynomial_of rest.now) }
    {
        match rest.first() {
            None => true,
            Some(next) => compare_monomials(&self.exps, &next.exps).is_gt(),
        }
    }
}

/// The terms are a polynomial within the limits.
pub fn are_standard(terms: &[Term]) -> bool
    ensures { result ≡ is_standard (polynomial_of terms.now) }
{
    if terms.len() > MOST_TERMS {
        return false;
    }
    let mut rest = terms;
    while let Some((first, tail)) = rest.split_first() {
        if !first.is_within() || !first.is_above(tail) {
            return false;
        }
        rest = tail;
    }
    true
}

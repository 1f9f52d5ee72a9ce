ghost use Rattle.std.specs.Prelude.{◌≡◌, ◌≤◌, ◌%◌, length};
ghost use Rattle.poly_model.specs.Polynomial.{monomial_cmp};
ghost use Rattle.poly_model.specs.Reduction.{monomial_class};
ghost use Rattle.poly_model.specs.declared.limits.TheConstants.{MOST_VARIABLES};
ghost use Rattle.poly_model.specs.Bounded.{exponents_max};

use poly_model::{MOST_VARIABLES, eight_exponents};
use std::cmp::Ordering;

/// Raises each exponent to that of another monomial, where that is greater.
#[inline(never)]
pub fn raise(highest: &mut [u8; MOST_VARIABLES], exps: &[u8; MOST_VARIABLES])
    ensures raised { highest.new ≡ exponents_max highest.old exps.now }
    ensures whole { length highest.new ≡ MOST_VARIABLES }
{
    for i in 0..MOST_VARIABLES {
        highest[i] = highest[i].max(exps[i]);
    }
}

/// Compares two monomials that have no variable from the place `end` on, by the exponents of the greatest variable, then by
/// those of the next. Eight are compared at a time.
pub fn compare_below(a: &[u8; MOST_VARIABLES], b: &[u8; MOST_VARIABLES], end: usize) -> Ordering
    requires within { end ≤ MOST_VARIABLES }
    requires whole { end % 8 ≡ 0 }
    requires a { monomial_class a.now ≤ end }
    requires b { monomial_class b.now ≤ end }
    ensures { result ≡ monomial_cmp a.now b.now }
{
    let mut i = end;
    while i > 0 {
        i -= 8;
        let (x, y) = (eight_exponents(a, i), eight_exponents(b, i));
        if x != y {
            return x.cmp(&y);
        }
    }
    Ordering::Equal
}

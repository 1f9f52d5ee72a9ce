// Values of polynomials at whole numbers, in bounds.
ghost use Rattle.std.specs.Prelude.{◌≡◌, ◌≤◌, ◌+ℤ◌, ◌*ℤ◌, unsigned_abs, IsTrue};
ghost use Rattle.std.specs.List.{list_all};
ghost use Rattle.std.specs.Option.{IfSome};
ghost use Rattle.poly_model.specs.Standard.{is_bounded, polynomial_of, are_bounded};
ghost use Rattle.sample_point.specs.Value.{in_bounds, times_power, times_powers, plus_terms, value_in};

use edge_num::{add_in, mul_in};
use poly_model::{OwnedPoly, Term};

/// The product, or `None` where its size passes the greatest.
pub fn product_in(a: i128, b: i128) -> Option<i128>
    requires a { IsTrue (is_bounded a) }
    requires b { IsTrue (is_bounded b) }
    ensures value { result ≡ in_bounds (a *ℤ b) }
    ensures size { IfSome result (λ z. IsTrue (is_bounded z)) }
{
    mul_in(a, b)
}

/// The sum, or `None` where its size passes the greatest.
pub fn sum_in(a: i128, b: i128) -> Option<i128>
    requires a { IsTrue (is_bounded a) }
    requires b { IsTrue (is_bounded b) }
    ensures value { result ≡ in_bounds (a +ℤ b) }
    ensures size { IfSome result (λ z. IsTrue (is_bounded z)) }
{
    add_in(a, b)
}

#[tactic(auto, unfolding(crate::specs::Value::times_power))]
fn times_power(e: u8, x: i128, z: i128) -> Option<i128>
    requires x { IsTrue (is_bounded x) }
    requires z { IsTrue (is_bounded z) }
    ensures value { result ≡ times_power e x z }
    ensures size { IfSome result (λ y. IsTrue (is_bounded y)) }
{
    if e == 0 {
        return Some(z);
    }
    let product = product_in(z, x)?;
    times_power(e - 1, x, product)
}

#[tactic(auto, unfolding(crate::specs::Value::times_powers))]
pub fn times_powers(exps: &[u8], point: &[i128], z: i128) -> Option<i128>
    requires point { IsTrue (list_all is_bounded point.now) }
    requires z { IsTrue (is_bounded z) }
    ensures value { result ≡ times_powers exps.now point.now z }
    ensures size { IfSome result (λ y. IsTrue (is_bounded y)) }
{
    let mut exps_left = exps;
    let mut left = point;
    let mut product = z;
    while let Some((e, es)) = exps_left.split_first() {
        let Some((x, xs)) = left.split_first() else {
            return Some(product);
        };
        product = times_power(*e, *x, product)?;
        exps_left = es;
        left = xs;
    }
    Some(product)
}

#[tactic(auto, unfolding(crate::specs::Value::plus_terms))]
fn plus_terms(terms: &[Term], point: &[i128], z: i128) -> Option<i128>
    requires terms { IsTrue (are_bounded (polynomial_of terms.now)) }
    requires point { IsTrue (list_all is_bounded point.now) }
    requires z { IsTrue (is_bounded z) }
    ensures value { result ≡ plus_terms (polynomial_of terms.now) point.now z }
{
    let mut left = terms;
    let mut sum = z;
    while let Some((first, rest)) = left.split_first() {
        let term = times_powers(&first.exps, point, first.coef)?;
        sum = sum_in(sum, term)?;
        left = rest;
    }
    Some(sum)
}

/// The value of a polynomial at a point, where no product or sum passes the greatest size.
pub fn value(p: &OwnedPoly, point: &[i128]) -> Option<i128>
    requires { IsTrue (list_all is_bounded point.now) }
    ensures { result ≡ value_in p.now point.now }
{
    plus_terms(p.terms(), point, 0)
}

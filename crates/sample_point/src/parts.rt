// Class and degree of a polynomial, and the values of its parts.
ghost use Rattle.std.specs.Prelude.{◌≡◌, ◌≤◌, ◌<◌, IfSome, IsTrue};
ghost use Rattle.std.specs.List.{list_all};
ghost use Rattle.poly_model.specs.Reduction.{class_of, coefficient_at, degree_at, without_degree};
ghost use Rattle.poly_model.specs.Standard.{is_bounded};
ghost use Rattle.poly_model.specs.declared.limits.TheConstants.{MOST_VARIABLES};
ghost use Rattle.sample_point.specs.Value.{value_in};

use crate::evaluation::{sum_in, times_powers};
use poly_model::OwnedPoly;
use polynomials::greatest;

/// The number of the greatest variable, and 0 of a constant.
pub fn class_number(p: &OwnedPoly) -> u8
    ensures class { result ≡ class_of p.now }
    ensures within { result ≤ MOST_VARIABLES }
{
    let terms = p.terms();
    if terms.is_empty() {
        return 0;
    }
    match greatest(&terms[0].exps) {
        None => 0,
        Some(place) => place + 1,
    }
}

/// The degree in the variable at a place.
pub fn degree_at(p: &OwnedPoly, place: u8) -> u8
    requires { place < MOST_VARIABLES }
    ensures { result ≡ degree_at place p.now }
{
    let mut degree = 0;
    let mut rest = p.terms();
    while let Some((first, after)) = rest.split_first() {
        degree = degree.max(first.exps[place as usize]);
        rest = after;
    }
    degree
}

/// The value of the coefficient of a power of the variable at a place.
#[tactic(auto, unfolding(crate::specs::Value::plus_terms))]
pub fn coefficient_value(p: &OwnedPoly, place: u8, degree: u8, point: &[i128]) -> Option<i128>
    requires place { place < MOST_VARIABLES }
    requires point { IsTrue (list_all is_bounded point.now) }
    ensures value { result ≡ value_in (coefficient_at place degree p.now) point.now }
    ensures size { IfSome result (λ z. IsTrue (is_bounded z)) }
{
    let mut sum = 0;
    let mut rest = p.terms();
    while let Some((first, after)) = rest.split_first() {
        if first.exps[place as usize] == degree {
            let mut others = first.exps;
            others[place as usize] = 0;
            sum = sum_in(sum, times_powers(&others, point, first.coef)?)?;
        }
        rest = after;
    }
    Some(sum)
}

/// The value of the other terms.
#[tactic(auto, unfolding(crate::specs::Value::plus_terms))]
pub fn rest_value(p: &OwnedPoly, place: u8, degree: u8, point: &[i128]) -> Option<i128>
    requires place { place < MOST_VARIABLES }
    requires point { IsTrue (list_all is_bounded point.now) }
    ensures value { result ≡ value_in (without_degree place degree p.now) point.now }
    ensures size { IfSome result (λ z. IsTrue (is_bounded z)) }
{
    let mut sum = 0;
    let mut rest = p.terms();
    while let Some((first, after)) = rest.split_first() {
        if first.exps[place as usize] != degree {
            sum = sum_in(sum, times_powers(&first.exps, point, first.coef)?)?;
        }
        rest = after;
    }
    Some(sum)
}

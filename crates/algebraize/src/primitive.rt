// Primitive parts of short lists of terms.
ghost use Rattle.std.specs.Prelude.{◌≡◌, ◌≢◌, ◌≤◌, ◌<◌, ◌^◌, IfOk, IsTrue, unsigned_abs};
ghost use Rattle.poly_model.specs.Polynomial.{IsDescending};
ghost use Rattle.poly_model.specs.Content.{coefficients_gcd, entries_divided, primitive_part, quotient_of, signed_by};
ghost use Rattle.poly_model.specs.Standard.{polynomial_of};
ghost use Rattle.poly_model.specs.declared.limits.TheConstants.{MOST_DEGREE, MOST_SIZE, MOST_VARIABLES};
ghost use Rattle.algebraize.specs.Small.{IsSmall, weight};

use edge_num::gcd;
use poly_model::{OwnedPoly, Term};
use std::alloc::{AllocError, Global};

fn common_divisor(terms: &[Term]) -> u128
    ensures { result ≡ coefficients_gcd (polynomial_of terms.now) }
{
    let mut divisor = 0;
    let mut rest = terms;
    while let Some((last, front)) = rest.split_last() {
        divisor = gcd(last.coef.unsigned_abs(), divisor);
        rest = front;
    }
    divisor
}

/// A coefficient divided by a divisor, with its sign turned where so.
pub fn divided(coef: i128, turned: bool, divisor: u128) -> i128
    requires divisor { 0 < divisor }
    requires coef { unsigned_abs coef ≤ MOST_SIZE }
    ensures { result ≡ signed_by turned (quotient_of coef divisor) }
{
    let size = (coef.unsigned_abs() / divisor) as i128;
    if (coef < 0) == turned { size } else { -size }
}

fn all_divided(
    alloc: Global,
    terms: &[Term],
    turned: bool,
    divisor: u128,
) -> Result<Vec<Term>, AllocError>
    requires divisor { 0 < divisor }
    requires terms { weight (polynomial_of terms.now) ≤ MOST_SIZE }
    ensures { IfOk result (λ r. polynomial_of r.items
        ≡ entries_divided turned divisor (polynomial_of terms.now)) }
{
    let mut quotients = Vec::new(alloc);
    let mut rest = terms;
    while let Some((term, tail)) = rest.split_first() {
        quotients.push(Term {
            coef: divided(term.coef, turned, divisor),
            exps: term.exps,
        })?;
        rest = tail;
    }
    Ok(quotients)
}

fn primitive_terms(alloc: Global, terms: &[Term]) -> Result<Vec<Term>, AllocError>
    requires descending { IsDescending MOST_VARIABLES (polynomial_of terms.now) }
    requires size { weight (polynomial_of terms.now) ≤ MOST_SIZE }
    ensures { IfOk result (λ r. polynomial_of r.items ≡ primitive_part (polynomial_of terms.now)) }
{
    match terms.split_first() {
        None => Ok(Vec::new(alloc)),
        Some((first, _)) => all_divided(alloc, terms, first.coef < 0, common_divisor(terms)),
    }
}

/// The primitive part of a small polynomial.
pub fn primitive_part(alloc: Global, terms: &[Term]) -> Result<OwnedPoly, AllocError>
    requires { IsSmall MOST_DEGREE MOST_SIZE (polynomial_of terms.now) }
    ensures { IfOk result (λ p. p ≡ primitive_part (polynomial_of terms.now)) }
{
    match OwnedPoly::from_terms(primitive_terms(alloc, terms)?) {
        Ok(polynomial) => Ok(polynomial),
        Err(_) => unreachable!(),
    }
}

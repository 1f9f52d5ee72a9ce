// Arithmetic on short lists of terms in descending order. Each function has a bound on what it takes, so that nothing overflows.
ghost use Rattle.std.specs.Prelude.{pos, ◌≡◌, ◌≤◌, ◌<◌, ◌+◌, ◌*◌, ◌^◌, ◌++◌, ◌∷◌, List, [], IfOk, OnOk, IsTrue, IsSome, unsigned_abs, length, ◌↔◌};
ghost use Rattle.poly_model.specs.Domain.{integer_in};
ghost use Rattle.poly_model.specs.Polynomial.{IsDescending, add_entry, add_multiple, poly_constant, poly_difference, poly_negative, poly_product, poly_scaled, poly_sum, poly_variable};
ghost use Rattle.poly_model.specs.Standard.{are_low, polynomial_of};
ghost use Rattle.poly_model.specs.declared.limits.TheConstants.{MOST_DEGREE, MOST_SIZE, MOST_VARIABLES};
ghost use Rattle.algebraize.specs.Equations.{polynomials};
ghost use Rattle.algebraize.specs.Small.{is_low, weight};
ghost use Rattle.algebraize.specs.Terms.{StandsAt, Stops, with_coefficient};

use poly_model::{MOST_VARIABLES, Term, compare_monomials, exponents_sum};
use std::alloc::{AllocError, Global};

/// The variable at a place.
pub fn variable(alloc: Global, place: u8) -> Result<Vec<Term>, AllocError>
    requires { place < MOST_VARIABLES }
    ensures { IfOk result (λ terms. polynomial_of terms.items
        ≡ poly_variable MOST_VARIABLES place) }
{
    let mut exps = [0; MOST_VARIABLES];
    exps[place as usize] = 1;
    let mut terms = Vec::new(alloc);
    terms.push(Term { coef: 1, exps })?;
    Ok(terms)
}

/// The constant 1.
pub fn constant_one(alloc: Global) -> Result<Vec<Term>, AllocError>
    ensures { IfOk result (λ terms. polynomial_of terms.items
        ≡ poly_constant MOST_VARIABLES (pos 1)) }
{
    let mut terms = Vec::new(alloc);
    terms.push(Term {
        coef: 1,
        exps: [0; MOST_VARIABLES],
    })?;
    Ok(terms)
}

/// How many terms stand above a monomial.
fn terms_above(terms: &[Term], exps: &[u8; MOST_VARIABLES]) -> usize
    ensures stops { Stops exps.now terms.now result }
    ensures within { result ≤ length terms.now }
{
    let mut count = 0;
    while count < terms.len() && compare_monomials(exps, &terms[count].exps).is_lt() {
        count += 1;
    }
    count
}

/// A term with this monomial stands at the place.
fn stands_at(terms: &[Term], place: usize, exps: &[u8; MOST_VARIABLES]) -> bool
    ensures { IsTrue result ↔ StandsAt exps.now terms.now place }
{
    place < terms.len() && compare_monomials(exps, &terms[place].exps).is_eq()
}

/// Adds to the coefficient of the term at a place. A term whose coefficient becomes 0 goes.
fn add_coefficient(terms: &mut Vec<Term>, place: usize, coef: i128)
    requires place { place < length terms.old.items }
    requires size { unsigned_abs coef + weight (polynomial_of terms.old.items) ≤ MOST_SIZE }
    ensures { polynomial_of terms.new.items
        ≡ with_coefficient (polynomial_of terms.old.items) place coef }
{
    let sum = coef + terms[place].coef;
    if sum == 0 {
        terms.remove(place);
    } else {
        terms[place].coef = sum;
    }
}

/// Adds one term, at its place in the order.
fn add_term(terms: &mut Vec<Term>, term: Term) -> Result<(), AllocError>
    requires { unsigned_abs term.coef + weight (polynomial_of terms.old.items) ≤ MOST_SIZE }
    ensures { OnOk result (polynomial_of terms.new.items
        ≡ add_entry term.exps term.coef (polynomial_of terms.old.items)) }
{
    let place = terms_above(terms, &term.exps);
    if stands_at(terms, place, &term.exps) {
        add_coefficient(terms, place, term.coef);
        return Ok(());
    }
    if term.coef != 0 {
        terms.insert(place, term)?;
    }
    Ok(())
}

fn sum_onto(p: &[Term], mut q: Vec<Term>) -> Result<Vec<Term>, AllocError>
    requires { weight (polynomial_of p.now) + weight (polynomial_of q.items) ≤ MOST_SIZE }
    ensures { IfOk result (λ r. polynomial_of r.items
        ≡ poly_sum (polynomial_of p.now) (polynomial_of q.items)) }
{
    let mut rest = p;
    while let Some((last, front)) = rest.split_last() {
        add_term(&mut q, *last)?;
        rest = front;
    }
    Ok(q)
}

/// The sum of two polynomials.
pub fn sum(alloc: Global, p: &[Term], q: &[Term]) -> Result<Vec<Term>, AllocError>
    requires { weight (polynomial_of p.now) + weight (polynomial_of q.now) ≤ MOST_SIZE }
    ensures { IfOk result (λ r. polynomial_of r.items
        ≡ poly_sum (polynomial_of p.now) (polynomial_of q.now)) }
{
    sum_onto(p, Vec::from_slice(alloc, q)?)
}

/// The negative of a polynomial.
pub fn negative(alloc: Global, p: &[Term]) -> Result<Vec<Term>, AllocError>
    requires { weight (polynomial_of p.now) ≤ MOST_SIZE }
    ensures { IfOk result (λ r. polynomial_of r.items ≡ poly_negative (polynomial_of p.now)) }
{
    let mut negated = Vec::new(alloc);
    let mut rest = p;
    while let Some((term, tail)) = rest.split_first() {
        negated.push(Term {
            coef: -term.coef,
            exps: term.exps,
        })?;
        rest = tail;
    }
    Ok(negated)
}

/// The difference of two polynomials.
pub fn difference(alloc: Global, p: &[Term], q: &[Term]) -> Result<Vec<Term>, AllocError>
    requires { weight (polynomial_of p.now) + weight (polynomial_of q.now) ≤ MOST_SIZE }
    ensures { IfOk result (λ r. polynomial_of r.items
        ≡ poly_difference (polynomial_of p.now) (polynomial_of q.now)) }
{
    sum_onto(p, negative(alloc, q)?)
}

fn scaled(alloc: Global, factor: i128, p: &[Term]) -> Result<Vec<Term>, AllocError>
    requires { unsigned_abs factor * weight (polynomial_of p.now) ≤ MOST_SIZE }
    ensures { IfOk result (λ r. polynomial_of r.items ≡ poly_scaled factor (polynomial_of p.now)) }
{
    let mut multiples = Vec::new(alloc);
    let mut rest = p;
    while let Some((term, tail)) = rest.split_first() {
        multiples.push(Term {
            coef: factor * term.coef,
            exps: term.exps,
        })?;
        rest = tail;
    }
    Ok(multiples)
}

/// A whole number times a polynomial.
pub fn multiple(alloc: Global, factor: i128, p: &[Term]) -> Result<Vec<Term>, AllocError>
    requires descending { IsDescending MOST_VARIABLES (polynomial_of p.now) }
    requires size { unsigned_abs factor * weight (polynomial_of p.now) ≤ MOST_SIZE }
    ensures { IfOk result (λ r. polynomial_of r.items
        ≡ poly_product (integer_in polynomials factor) (polynomial_of p.now)) }
{
    if factor == 0 {
        return Ok(Vec::new(alloc));
    }
    scaled(alloc, factor, p)
}

/// Adds one term times a polynomial.
fn add_multiple(sum: &mut Vec<Term>, term: &Term, q: &[Term]) -> Result<(), AllocError>
    requires size { unsigned_abs term.now.coef * weight (polynomial_of q.now)
        + weight (polynomial_of sum.old.items) ≤ MOST_SIZE }
    requires low { IsTrue (are_low term.now.exps) }
    requires q { IsTrue (is_low MOST_DEGREE (polynomial_of q.now)) }
    ensures { OnOk result (polynomial_of sum.new.items
        ≡ add_multiple term.now.exps term.now.coef (polynomial_of q.now)
        (polynomial_of sum.old.items)) }
{
    let mut rest = q;
    while let Some((last, front)) = rest.split_last() {
        add_term(
            sum,
            Term {
                coef: term.coef * last.coef,
                exps: exponents_sum(&term.exps, &last.exps),
            },
        )?;
        rest = front;
    }
    Ok(())
}

/// The product of two polynomials.
pub fn product(alloc: Global, p: &[Term], q: &[Term]) -> Result<Vec<Term>, AllocError>
    requires size { weight (polynomial_of p.now) * weight (polynomial_of q.now) ≤ MOST_SIZE }
    requires p { IsTrue (is_low MOST_DEGREE (polynomial_of p.now)) }
    requires q { IsTrue (is_low MOST_DEGREE (polynomial_of q.now)) }
    ensures { IfOk result (λ r. polynomial_of r.items
        ≡ poly_product (polynomial_of p.now) (polynomial_of q.now)) }
{
    let mut product = Vec::new(alloc);
    let mut rest = p;
    while let Some((last, front)) = rest.split_last() {
        add_multiple(&mut product, last, q)?;
        rest = front;
    }
    Ok(product)
}

// The conclusion of an equality of two terms.
ghost use Rattle.std.specs.Prelude.{◌≡◌, length, IsTrue, Ok, IfOk, IfErr};
ghost use Rattle.poly_model.specs.Reduction.{has_polynomial};
ghost use Rattle.ratio_terms.specs.Terms.{names_in, are_terms};
ghost use Rattle.ratio_eq.specs.declared.fault.RatioFault.TheVariants.{OutOfMemory};
ghost use Rattle.ratio_eq.specs.Fractions.{with_new, parts_once};
ghost use Rattle.ratio_eq.specs.Bounded.{bounded_cross_of, bounded_onto, bounded_equality, concluded};
ghost use Rattle.ratio_eq.specs.Outcomes.{Gives, same};
ghost use Rattle.ratio_eq.specs.Forming.{formed_of};

use crate::arith::{Operation, combined, primitive};
use crate::fault::RatioFault;
use crate::fraction::{Fraction, appended};
use crate::term::{behind, term};
use poly_model::OwnedPoly;
use ratio_terms::Part;
use std::alloc::Global;

fn has_polynomial(polynomials: &[OwnedPoly], p: &OwnedPoly) -> bool
    ensures { result ≡ has_polynomial polynomials.now p.now }
{
    polynomials.iter().any(|q| p == q)
}

/// A polynomial behind the others, unless it is one of them.
fn add_new(seen: &mut Vec<OwnedPoly>, p: OwnedPoly) -> Result<(), RatioFault>
    ensures items { IfOk result (λ _. seen.new.items ≡ with_new seen.old.items p) }
    ensures fault { IfErr result (λ fault. fault ≡ OutOfMemory) }
{
    if !has_polynomial(seen, &p) {
        seen.push(p)?;
    }
    Ok(())
}

/// The primitive parts of a list, equal ones once.
fn distinct_parts(alloc: Global, ps: &[OwnedPoly]) -> Result<Vec<OwnedPoly>, RatioFault>
    ensures items { IfOk result (λ parts. parts.items ≡ parts_once ps.now) }
    ensures fault { IfErr result (λ fault. fault ≡ OutOfMemory) }
{
    let mut seen = Vec::new(alloc);
    let mut rest = ps;
    while let Some((p, after)) = rest.split_first() {
        let part = primitive(alloc, p)?;
        add_new(&mut seen, part)?;
        rest = after;
    }
    Ok(seen)
}

/// A polynomial times each of a list, in order.
fn onto(alloc: Global, p: OwnedPoly, qs: &[OwnedPoly]) -> Result<OwnedPoly, RatioFault>
    ensures { Gives same result (bounded_onto p qs.now) }
{
    let mut product = p;
    let mut rest = qs;
    while let Some((q, after)) = rest.split_first() {
        product = combined(alloc, Operation::Product, &product, q)?;
        rest = after;
    }
    Ok(product)
}

/// The difference of two fractions, times both denominators.
fn crossed(alloc: Global, x: &Fraction, y: &Fraction) -> Result<OwnedPoly, RatioFault>
    ensures { Gives same result (bounded_cross_of (formed_of x.now) (formed_of y.now)) }
{
    let first = combined(alloc, Operation::Product, &x.over, &y.under)?;
    let second = combined(alloc, Operation::Product, &y.over, &x.under)?;
    combined(alloc, Operation::Difference, &first, &second)
}

/// The conclusion that two fractions are equal, or that a square by which their terms divide is zero.
fn equality(alloc: Global, x: Fraction, y: Fraction) -> Result<OwnedPoly, RatioFault>
    ensures { Gives same result (bounded_equality (formed_of x) (formed_of y)) }
{
    let difference = crossed(alloc, &x, &y)?;
    let start = primitive(alloc, &difference)?;
    let squares = appended(x.squares, y.squares)?;
    let factors = distinct_parts(alloc, &squares)?;
    let product = onto(alloc, start, &factors)?;
    primitive(alloc, &product)
}

/// The conclusion of an equality of two terms, given by their parts in preorder and the places of their points in order;
/// or the limit that forming it meets first, where each term is formed from left to right, the first before the second.
pub fn conclude(
    alloc: Global,
    parts: &[Part],
    spots: &[(OwnedPoly, OwnedPoly)],
) -> Result<OwnedPoly, RatioFault>
    requires terms { IsTrue (are_terms 2 parts.now) }
    requires spots { length spots.now ≡ names_in parts.now }
    ensures { Gives same result (concluded parts.now spots.now) }
{
    let first = term(alloc, parts, spots)?;
    let second = term(
        alloc,
        behind(parts, first.parts),
        behind(spots, first.spots),
    )?;
    equality(alloc, first.fraction, second.fraction)
}

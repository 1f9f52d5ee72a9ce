// Arithmetic of owned polynomials within the limits, by way of a store.
ghost use Rattle.std.specs.Prelude.{◌≡◌, ◌≤◌, IfOk, IfErr, Ok};
ghost use Rattle.poly_model.specs.Domain.{natural_in};
ghost use Rattle.poly_model.specs.Content.{primitive_part};
ghost use Rattle.poly_model.specs.Standard.{polynomial_of};
ghost use Rattle.poly_model.specs.declared.limits.TheConstants.{ARITH_UNITS, STEP_UNITS};
ghost use Rattle.polynomials.specs.Held.{IsPoly, Answers, polynomial_at};
ghost use Rattle.term_store.specs.Holding.{held_by};
ghost use Rattle.ratio_eq.specs.Fractions.{polynomials};
ghost use Rattle.ratio_eq.specs.declared.fault.RatioFault.TheVariants.{OutOfMemory};
ghost use Rattle.ratio_eq.specs.Outcomes.{Gives, bounded_by, same};

use crate::fault::RatioFault;
use poly_model::{Limit, MOST_VARIABLES, OwnedPoly, STEP_UNITS, Term};
use polynomials::{Poly, add, copy_in, copy_out, mul, prim, sub};
use std::alloc::Global;
use term_store::{TermStore, VecStore};

/// What two polynomials are combined by.
#[derive(Clone, Copy, Debug, PartialEq, Eq)]
pub enum Operation {
    Sum,
    Difference,
    Product,
}

/// A store with room for two polynomials and an operation.
fn store(alloc: Global) -> Result<VecStore, RatioFault>
    ensures room { IfOk result (λ s. STEP_UNITS ≤ (held_by s).spare) }
    ensures fault { IfErr result (λ fault. fault ≡ OutOfMemory) }
{
    let mut store = VecStore::new(alloc)?;
    match store.reserve(STEP_UNITS) {
        Ok(()) => Ok(store),
        Err(_) => Err(RatioFault::OutOfMemory),
    }
}

/// Two polynomials of a store combined, or the limit that is met first.
fn combine<S: TermStore>(s: &mut S, by: Operation, a: Poly, b: Poly) -> Result<Poly, Limit>
    requires a { IsPoly (S.state s.old) a }
    requires b { IsPoly (S.state s.old) b }
    requires room { ARITH_UNITS ≤ (S.state s.old).spare }
    ensures { Answers (S.state s.old) (S.state s.new) result
        (bounded_by by (polynomial_at (S.state s.old) a) (polynomial_at (S.state s.old) b)) }
{
    match by {
        Operation::Sum => add(s, a, b),
        Operation::Difference => sub(s, a, b),
        Operation::Product => mul(s, a, b),
    }
}

/// Two polynomials combined, or the limit that is met first.
pub fn combined(
    alloc: Global,
    by: Operation,
    a: &OwnedPoly,
    b: &OwnedPoly,
) -> Result<OwnedPoly, RatioFault>
    ensures { Gives same result (bounded_by by a.now b.now) }
{
    let mut s = store(alloc)?;
    let first = copy_in(&mut s, a);
    let second = copy_in(&mut s, b);
    match combine(&mut s, by, first, second) {
        Ok(made) => Ok(copy_out(alloc, &s, made)?),
        Err(limit) => Err(RatioFault::Limit(limit)),
    }
}

/// The primitive part.
pub fn primitive(alloc: Global, p: &OwnedPoly) -> Result<OwnedPoly, RatioFault>
    ensures { Gives same result (Ok (primitive_part p.now)) }
{
    let mut s = store(alloc)?;
    let whole = copy_in(&mut s, p);
    let (_, part) = prim(&mut s, whole);
    Ok(copy_out(alloc, &s, part)?)
}

/// The terms of a whole number.
fn constant_terms(alloc: Global, k: u32) -> Result<Vec<Term>, RatioFault>
    ensures terms { IfOk result (λ ts. polynomial_of ts.items ≡ natural_in polynomials k) }
    ensures fault { IfErr result (λ fault. fault ≡ OutOfMemory) }
{
    let mut terms = Vec::new(alloc);
    if k == 0 {
        return Ok(terms);
    }
    terms.push(Term {
        coef: k as i128,
        exps: [0; MOST_VARIABLES],
    })?;
    Ok(terms)
}

/// A whole number.
pub fn number(alloc: Global, k: u32) -> Result<OwnedPoly, RatioFault>
    ensures { Gives same result (Ok (natural_in polynomials k)) }
{
    let terms = constant_terms(alloc, k)?;
    match OwnedPoly::from_terms(terms) {
        Ok(p) => Ok(p),
        Err(_) => unreachable!(),
    }
}

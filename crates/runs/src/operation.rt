// Operations of arithmetic over copies of polynomials in a store.
ghost use Rattle.std.specs.Prelude.{◌≡◌, ◌≤◌, IfOk, suc};
ghost use Rattle.poly_model.specs.Reduction.{class_of};
ghost use Rattle.poly_model.specs.declared.limits.TheConstants.{ARITH_UNITS};
ghost use Rattle.polynomials.specs.Held.{IsPoly, polynomial_at};

use anyhow::{Result, bail};
use poly_model::{LEAF_UNITS, Limit, OwnedPoly};
use polynomials::{
    Poly, add, class, coefficient, copy, copy_in, copy_out, initial, mul, prim, shift, sub, tail,
};
use pseudo_div::{Down, prem};
use std::alloc::Global;
use term_store::TermStore;

/// An operation on two polynomials, or on the first of them.
#[derive(Clone, Copy, Debug)]
pub enum Operation {
    Add,
    Sub,
    Mul,
    /// The primitive part.
    Prim,
    /// The coefficient of a power of the greatest variable.
    Coefficient(u8),
    /// The product with a power of the greatest variable.
    Shift(u8),
    Initial,
    Tail,
}

/// An operation on the first alone, whose greatest variable is at the place `var`.
fn of_first<S: TermStore>(s: &mut S, operation: Operation, p: Poly, var: u8) -> Result<Poly, Limit>
    requires p { IsPoly (S.state s.old) p }
    requires class { class_of (polynomial_at (S.state s.old) p) ≡ suc var }
    requires room { ARITH_UNITS ≤ (S.state s.old).spare }
    ensures { IfOk result (λ r. IsPoly (S.state s.new) r) }
{
    match operation {
        Operation::Coefficient(power) => Ok(coefficient(s, p, var, power)),
        Operation::Shift(by) => shift(s, p, var, by),
        Operation::Initial => Ok(initial(s, p)),
        Operation::Tail => Ok(tail(s, p)),
        Operation::Add | Operation::Sub | Operation::Mul | Operation::Prim => Ok(copy(s, p)),
    }
}

/// The result, or the limit that is met. A constant is its own initial, tail, coefficient and shift here.
fn apply<S: TermStore>(s: &mut S, operation: Operation, p: Poly, q: Poly) -> Result<Poly, Limit>
    requires p { IsPoly (S.state s.old) p }
    requires q { IsPoly (S.state s.old) q }
    requires room { ARITH_UNITS ≤ (S.state s.old).spare }
    ensures { IfOk result (λ r. IsPoly (S.state s.new) r) }
{
    match operation {
        Operation::Add => add(s, p, q),
        Operation::Sub => sub(s, p, q),
        Operation::Mul => mul(s, p, q),
        Operation::Prim => Ok(prim(s, p).1),
        Operation::Coefficient(_) | Operation::Shift(_) | Operation::Initial | Operation::Tail => {
            match class(s, p) {
                None => Ok(copy(s, p)),
                Some(var) => of_first(s, operation, p, var),
            }
        }
    }
}

/// The result of an operation on copies of two polynomials, or the limit that is met.
pub fn answer<S: TermStore>(
    alloc: Global,
    s: &mut S,
    operation: Operation,
    a: &OwnedPoly,
    b: &OwnedPoly,
) -> Result<Result<OwnedPoly, Limit>> {
    if s.reserve(LEAF_UNITS).is_err() {
        bail!("memory is short");
    }
    let p = copy_in(s, a);
    let q = copy_in(s, b);
    match apply(s, operation, p, q) {
        Err(limit) => Ok(Err(limit)),
        Ok(r) => Ok(Ok(copy_out(alloc, s, r)?)),
    }
}

/// The division of a copy of a by one of b in the greatest variable of b, with so much fuel, and its rest. A constant
/// divides nothing.
pub fn division<S: TermStore>(
    alloc: Global,
    s: &mut S,
    a: &OwnedPoly,
    b: &OwnedPoly,
    fuel: u32,
) -> Result<(Down, OwnedPoly)> {
    if s.reserve(LEAF_UNITS).is_err() {
        bail!("memory is short");
    }
    let p = copy_in(s, a);
    let q = copy_in(s, b);
    let Some(var) = class(s, q) else {
        bail!("the divisor is a constant")
    };
    let down = prem(alloc, s, p, q, var, fuel)?;
    let rest = copy_out(alloc, s, down.rest)?;
    Ok((down, rest))
}

// Vectors of polynomials within the limits.
ghost use Rattle.std.specs.Prelude.{◌≡◌};
ghost use Rattle.ratio_eq.specs.Bounded.{bounded_minus, bounded_dot, bounded_crossing, bounded_square};
ghost use Rattle.ratio_eq.specs.Outcomes.{Gives, same};

use crate::arith::{Operation, combined};
use crate::fault::RatioFault;
use poly_model::OwnedPoly;
use std::alloc::Global;

/// A vector, or the place of a point.
pub type Vector = (OwnedPoly, OwnedPoly);

/// The vector from q to p.
pub fn minus(alloc: Global, p: &Vector, q: &Vector) -> Result<Vector, RatioFault>
    ensures { Gives same result (bounded_minus p.now q.now) }
{
    let x = combined(alloc, Operation::Difference, &p.0, &q.0)?;
    let y = combined(alloc, Operation::Difference, &p.1, &q.1)?;
    Ok((x, y))
}

pub fn dot(alloc: Global, p: &Vector, q: &Vector) -> Result<OwnedPoly, RatioFault>
    ensures { Gives same result (bounded_dot p.now q.now) }
{
    let x = combined(alloc, Operation::Product, &p.0, &q.0)?;
    let y = combined(alloc, Operation::Product, &p.1, &q.1)?;
    combined(alloc, Operation::Sum, &x, &y)
}

pub fn cross(alloc: Global, p: &Vector, q: &Vector) -> Result<OwnedPoly, RatioFault>
    ensures { Gives same result (bounded_crossing p.now q.now) }
{
    let x = combined(alloc, Operation::Product, &p.0, &q.1)?;
    let y = combined(alloc, Operation::Product, &p.1, &q.0)?;
    combined(alloc, Operation::Difference, &x, &y)
}

/// The square of the vector from q to p.
pub fn square(alloc: Global, p: &Vector, q: &Vector) -> Result<OwnedPoly, RatioFault>
    ensures { Gives same result (bounded_square p.now q.now) }
{
    let u = minus(alloc, p, q)?;
    dot(alloc, &u, &u)
}

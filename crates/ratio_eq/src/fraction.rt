// Fractions of polynomials within the limits.
ghost use Rattle.std.specs.Prelude.{◌≡◌, ◌≤◌, ◌++◌, length, Ok, IfOk, IfErr};
ghost use Rattle.ratio_terms.specs.Terms.{operands_of, names_of};
ghost use Rattle.ratio_eq.specs.declared.fault.RatioFault.TheVariants.{OutOfMemory};
ghost use Rattle.ratio_eq.specs.Bounded.{formed_over_one, bounded_area, bounded_pythagoras, bounded_ratio, bounded_fraction_sum, bounded_fraction_product};
ghost use Rattle.ratio_eq.specs.Outcomes.{Gives};
ghost use Rattle.ratio_eq.specs.Forming.{formed_of, bounded_leaf, bounded_joined};

use crate::arith::{Operation, combined, number};
use crate::fault::RatioFault;
use crate::vector::{Vector, cross, dot, minus, square};
use poly_model::OwnedPoly;
use ratio_terms::Part;
use std::alloc::Global;

/// The fraction of a term, with the squares by which the term divides.
#[derive(Debug, Drop)]
pub struct Fraction {
    pub over: OwnedPoly,
    pub under: OwnedPoly,
    pub squares: Vec<OwnedPoly>,
}

/// A fraction over 1.
fn over_one(alloc: Global, over: OwnedPoly) -> Result<Fraction, RatioFault>
    ensures { Gives formed_of result (Ok (formed_over_one over)) }
{
    Ok(Fraction {
        over,
        under: number(alloc, 1)?,
        squares: Vec::new(alloc),
    })
}

/// Twice the signed area of a triangle, over 2.
fn area(alloc: Global, a: &Vector, b: &Vector, c: &Vector) -> Result<Fraction, RatioFault>
    ensures { Gives formed_of result (bounded_area a.now b.now c.now) }
{
    let u = minus(alloc, b, a)?;
    let v = minus(alloc, c, a)?;
    let over = cross(alloc, &u, &v)?;
    Ok(Fraction {
        over,
        under: number(alloc, 2)?,
        squares: Vec::new(alloc),
    })
}

/// The Pythagoras difference of three points.
fn pythagoras(alloc: Global, a: &Vector, b: &Vector, c: &Vector) -> Result<Fraction, RatioFault>
    ensures { Gives formed_of result (bounded_pythagoras a.now b.now c.now) }
{
    let first = square(alloc, a, b)?;
    let second = square(alloc, c, b)?;
    let sum = combined(alloc, Operation::Sum, &first, &second)?;
    let third = square(alloc, c, a)?;
    let over = combined(alloc, Operation::Difference, &sum, &third)?;
    over_one(alloc, over)
}

/// The signed ratio of two segments.
fn ratio(
    alloc: Global,
    a: &Vector,
    b: &Vector,
    c: &Vector,
    d: &Vector,
) -> Result<Fraction, RatioFault>
    ensures { Gives formed_of result (bounded_ratio a.now b.now c.now d.now) }
{
    let u = minus(alloc, b, a)?;
    let v = minus(alloc, d, c)?;
    let over = dot(alloc, &u, &v)?;
    let under = dot(alloc, &v, &v)?;
    let mut squares = Vec::new(alloc);
    squares.push(under.copy(alloc)?)?;
    Ok(Fraction {
        over,
        under,
        squares,
    })
}

/// A list, and another behind it.
pub fn appended(front: Vec<OwnedPoly>, behind: Vec<OwnedPoly>) -> Result<Vec<OwnedPoly>, RatioFault>
    ensures items { IfOk result (λ all. all.items ≡ front.items ++ behind.items) }
    ensures fault { IfErr result (λ fault. fault ≡ OutOfMemory) }
{
    let mut all = front;
    let mut more = behind;
    all.append(&mut more)?;
    Ok(all)
}

/// The sum of two fractions.
fn sum(alloc: Global, x: Fraction, y: Fraction) -> Result<Fraction, RatioFault>
    ensures { Gives formed_of result (bounded_fraction_sum (formed_of x) (formed_of y)) }
{
    let first = combined(alloc, Operation::Product, &x.over, &y.under)?;
    let second = combined(alloc, Operation::Product, &y.over, &x.under)?;
    let over = combined(alloc, Operation::Sum, &first, &second)?;
    let under = combined(alloc, Operation::Product, &x.under, &y.under)?;
    Ok(Fraction {
        over,
        under,
        squares: appended(x.squares, y.squares)?,
    })
}

/// The product of two fractions.
fn product(alloc: Global, x: Fraction, y: Fraction) -> Result<Fraction, RatioFault>
    ensures { Gives formed_of result (bounded_fraction_product (formed_of x) (formed_of y)) }
{
    let over = combined(alloc, Operation::Product, &x.over, &y.over)?;
    let under = combined(alloc, Operation::Product, &x.under, &y.under)?;
    Ok(Fraction {
        over,
        under,
        squares: appended(x.squares, y.squares)?,
    })
}

/// The fraction of a part without operands, over the first places.
pub fn leaf(alloc: Global, part: Part, spots: &[Vector]) -> Result<Fraction, RatioFault>
    requires operands { operands_of part ≡ 0 }
    requires spots { names_of part ≤ length spots.now }
    ensures { Gives formed_of result (bounded_leaf part spots.now) }
{
    match part {
        Part::Area3 => area(alloc, &spots[0], &spots[1], &spots[2]),
        Part::Pyth3 => pythagoras(alloc, &spots[0], &spots[1], &spots[2]),
        Part::Sratio => ratio(alloc, &spots[0], &spots[1], &spots[2], &spots[3]),
        Part::Whole(k) => over_one(alloc, number(alloc, k)?),
        Part::Sum | Part::Mult => unreachable!(),
    }
}

/// The fraction of a part with two operands, of which these are the fractions.
pub fn joined(alloc: Global, part: Part, x: Fraction, y: Fraction) -> Result<Fraction, RatioFault>
    requires { operands_of part ≡ 2 }
    ensures { Gives formed_of result (bounded_joined part (formed_of x) (formed_of y)) }
{
    match part {
        Part::Mult => product(alloc, x, y),
        _ => sum(alloc, x, y),
    }
}

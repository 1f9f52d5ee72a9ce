// The equations of constructions and statements over places, lines and circles.
ghost use Rattle.std.specs.Prelude.{◌≡◌, IfOk, map, [], ◌∷◌, pos};
ghost use Rattle.poly_model.specs.Content.{primitive_part};
ghost use Rattle.algebraize.specs.Equations.{polynomials};
ghost use Rattle.algebraize.specs.Figure.{impossible};
ghost use Rattle.algebraize.specs.Ratio.{denominator, numerator};
ghost use Rattle.algebraize.specs.Rows as row;
ghost use Rattle.algebraize.specs.Shape.{line_of};
ghost use Rattle.algebraize.specs.Vectors.{coordinates};

use crate::lines::{Circle, Line};
use crate::vectors::{
    Place, Quadratic, Vector, centred, cross, dot, off_midpoint, off_translation, one,
    sq_difference,
};
use poly_model::OwnedPoly;
use std::alloc::{AllocError, Global};

/// The coordinates' primitive parts.
fn both(alloc: Global, v: &Vector) -> Result<Vec<OwnedPoly>, AllocError>
    ensures { IfOk result (λ ps. ps.items ≡ map primitive_part (coordinates v.now)) }
{
    let mut equations = Vec::new(alloc);
    equations.push(v.first(alloc)?)?;
    equations.push(v.second(alloc)?)?;
    Ok(equations)
}

/// The primitive parts of some expressions.
fn equations(alloc: Global, expressions: &[Quadratic]) -> Result<Vec<OwnedPoly>, AllocError>
    ensures { IfOk result (λ ps. ps.items ≡ map primitive_part expressions.now) }
{
    let mut equations = Vec::new(alloc);
    let mut rest = expressions;
    while let Some((expression, tail)) = rest.split_first() {
        equations.push(expression.primitive_part(alloc)?)?;
        rest = tail;
    }
    Ok(equations)
}

/// A and B are the same.
pub fn identical(alloc: Global, a: &Place, b: &Place) -> Result<Vec<OwnedPoly>, AllocError>
    ensures { IfOk result (λ ps. ps.items
        ≡ map primitive_part (row.identical polynomials a.now b.now)) }
{
    both(alloc, &a.minus(alloc, b)?)
}

/// A, B and C are on one line.
pub fn collinear(
    alloc: Global,
    a: &Place,
    b: &Place,
    c: &Place,
) -> Result<Vec<OwnedPoly>, AllocError>
    ensures { IfOk result (λ ps. ps.items
        ≡ map primitive_part (row.collinear polynomials a.now b.now c.now)) }
{
    let on = cross(alloc, &b.minus(alloc, a)?, &c.minus(alloc, a)?)?;
    equations(alloc, &[on])
}

/// AB is perpendicular to CD.
pub fn perpendicular(
    alloc: Global,
    a: &Place,
    b: &Place,
    c: &Place,
    d: &Place,
) -> Result<Vec<OwnedPoly>, AllocError>
    ensures { IfOk result (λ ps. ps.items
        ≡ map primitive_part (row.perpendicular polynomials a.now b.now c.now d.now)) }
{
    let across = dot(alloc, &b.minus(alloc, a)?, &d.minus(alloc, c)?)?;
    equations(alloc, &[across])
}

/// AB is parallel to CD.
pub fn parallel(
    alloc: Global,
    a: &Place,
    b: &Place,
    c: &Place,
    d: &Place,
) -> Result<Vec<OwnedPoly>, AllocError>
    ensures { IfOk result (λ ps. ps.items
        ≡ map primitive_part (row.parallel polynomials a.now b.now c.now d.now)) }
{
    let along = cross(alloc, &b.minus(alloc, a)?, &d.minus(alloc, c)?)?;
    equations(alloc, &[along])
}

/// M is the midpoint of A and B.
pub fn midpoint(
    alloc: Global,
    m: &Place,
    a: &Place,
    b: &Place,
) -> Result<Vec<OwnedPoly>, AllocError>
    ensures { IfOk result (λ ps. ps.items
        ≡ map primitive_part (row.midpoint polynomials m.now a.now b.now)) }
{
    both(alloc, &off_midpoint(alloc, m, a, b)?)
}

/// AB is as long as CD.
pub fn same_length(
    alloc: Global,
    a: &Place,
    b: &Place,
    c: &Place,
    d: &Place,
) -> Result<Vec<OwnedPoly>, AllocError>
    ensures { IfOk result (λ ps. ps.items
        ≡ map primitive_part (row.same_length polynomials a.now b.now c.now d.now)) }
{
    let longer = sq_difference(alloc, &b.minus(alloc, a)?, &d.minus(alloc, c)?)?;
    equations(alloc, &[longer])
}

/// X is on both lines.
pub fn intersection(
    alloc: Global,
    x: &Place,
    a: &Line,
    b: &Line,
) -> Result<Vec<OwnedPoly>, AllocError>
    ensures { IfOk result (λ ps. ps.items
        ≡ map primitive_part (row.intersection x.now (line_of a.now) (line_of b.now))) }
{
    let on_a = a.incidence(alloc, x)?;
    let on_b = b.incidence(alloc, x)?;
    equations(alloc, &[on_a, on_b])
}

/// F is on the line, and AF is perpendicular to it.
pub fn foot(alloc: Global, f: &Place, a: &Place, line: &Line) -> Result<Vec<OwnedPoly>, AllocError>
    ensures { IfOk result (λ ps. ps.items
        ≡ map primitive_part (row.foot polynomials f.now a.now (line_of line.now))) }
{
    let on = line.incidence(alloc, f)?;
    let across = dot(alloc, line.direction(), &f.minus(alloc, a)?)?;
    equations(alloc, &[on, across])
}

/// X is on the line AB.
pub fn on_line(alloc: Global, x: &Place, a: &Place, b: &Place) -> Result<Vec<OwnedPoly>, AllocError>
    ensures { IfOk result (λ ps. ps.items
        ≡ map primitive_part (row.on_line polynomials x.now a.now b.now)) }
{
    let on = cross(alloc, &b.minus(alloc, a)?, &x.minus(alloc, a)?)?;
    equations(alloc, &[on])
}

/// X is on a circle.
pub fn on_circle(alloc: Global, x: &Place, circle: &Circle) -> Result<Vec<OwnedPoly>, AllocError>
    ensures { IfOk result (λ ps. ps.items
        ≡ map primitive_part (row.on_circle polynomials x.now circle.now ∷ [])) }
{
    let on = circle.incidence(alloc, x)?;
    equations(alloc, &[on])
}

/// X is C moved by the vector from A to B.
pub fn translation(
    alloc: Global,
    x: &Place,
    a: &Place,
    b: &Place,
    c: &Place,
) -> Result<Vec<OwnedPoly>, AllocError>
    ensures { IfOk result (λ ps. ps.items
        ≡ map primitive_part (row.translation polynomials x.now a.now b.now c.now)) }
{
    both(alloc, &off_translation(alloc, x, a, b, c)?)
}

/// X and Y are the common points of a circle and a line.
pub fn line_cut(
    alloc: Global,
    x: &Place,
    y: &Place,
    circle: &Circle,
    line: &Line,
) -> Result<Vec<OwnedPoly>, AllocError>
    ensures { IfOk result (λ ps. ps.items
        ≡ map primitive_part (row.line_cut polynomials x.now y.now circle.now (line_of line.now))) }
{
    let x_on_line = line.incidence(alloc, x)?;
    let x_on_circle = circle.incidence(alloc, x)?;
    let y_on_line = line.incidence(alloc, y)?;
    let mirrored = dot(
        alloc,
        line.direction(),
        &centred(alloc, x, y, circle.centre())?,
    )?;
    equations(alloc, &[x_on_line, x_on_circle, y_on_line, mirrored])
}

/// X and Y are the common points of two circles.
pub fn circle_cut(
    alloc: Global,
    x: &Place,
    y: &Place,
    first: &Circle,
    second: &Circle,
) -> Result<Vec<OwnedPoly>, AllocError>
    ensures { IfOk result (λ ps. ps.items
        ≡ map primitive_part (row.circle_cut polynomials x.now y.now first.now second.now)) }
{
    let centres = second.centre().minus(alloc, first.centre())?;
    let on_first = first.incidence(alloc, x)?;
    let on_second = second.incidence(alloc, x)?;
    let across = dot(alloc, &centres, &y.minus(alloc, x)?)?;
    let mirrored = cross(alloc, &centres, &centred(alloc, x, y, first.centre())?)?;
    equations(alloc, &[on_first, on_second, across, mirrored])
}

/// What no figure makes zero.
pub fn impossible(alloc: Global) -> Result<Vec<OwnedPoly>, AllocError>
    ensures { IfOk result (λ ps. ps.items ≡ map primitive_part (impossible polynomials)) }
{
    equations(alloc, &[one(alloc)?])
}

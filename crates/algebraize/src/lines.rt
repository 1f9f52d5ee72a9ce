// Lines and circles over polynomials.
ghost use Rattle.std.specs.Prelude.{◌≡◌, IfOk};
ghost use Rattle.algebraize.specs.Curves.{bisector, line_across, line_along, line_through, no_circle, no_line};
ghost use Rattle.algebraize.specs.Equations.{polynomials};
ghost use Rattle.algebraize.specs.Rows.{on_circle};
ghost use Rattle.algebraize.specs.Shape.{line_of};

use crate::vectors::{Place, Quadratic, Vector, cross, dot, one, sq_difference};
use std::alloc::{AllocError, Global};
use std::marker::Model;

/// How a line stands.
#[derive(Drop)]
pub enum Shape {
    /// Through a place, along its direction.
    Along(Place),
    /// Through a place, across a vector.
    Across(Vector, Place),
    /// Between two places.
    Bisector(Place, Place),
    /// Not at all: no place is on it.
    Nowhere,
}

/// A line: its direction, and what is zero of each place on it.
#[derive(Drop)]
pub struct Line {
    direction: Vector,
    shape: Shape,
}

impl Line {
    /// The line through A with this direction.
    pub fn along(direction: Vector, a: Place) -> Line
        ensures { line_of result ≡ line_along polynomials direction a }
    {
        Line {
            direction,
            shape: Shape::Along(a),
        }
    }

    /// The line through A and B.
    pub fn through(alloc: Global, a: &Place, b: &Place) -> Result<Line, AllocError>
        ensures { IfOk result (λ l. line_of l ≡ line_through polynomials a.now b.now) }
    {
        Ok(Line::along(b.minus(alloc, a)?, a.copy(alloc)?))
    }

    /// The line through A that is perpendicular to a vector.
    pub fn across(alloc: Global, normal: &Vector, a: &Place) -> Result<Line, AllocError>
        ensures { IfOk result (λ l. line_of l ≡ line_across polynomials normal.now a.now) }
    {
        Ok(Line {
            direction: normal.rot(alloc)?,
            shape: Shape::Across(normal.copy(alloc)?, a.copy(alloc)?),
        })
    }

    /// The perpendicular bisector of A and B.
    pub fn bisector(alloc: Global, a: &Place, b: &Place) -> Result<Line, AllocError>
        ensures { IfOk result (λ l. line_of l ≡ bisector polynomials a.now b.now) }
    {
        let across = b.minus(alloc, a)?;
        Ok(Line {
            direction: across.rot(alloc)?,
            shape: Shape::Bisector(a.copy(alloc)?, b.copy(alloc)?),
        })
    }

    /// What stands for a line that was not made.
    pub fn nowhere(alloc: Global) -> Line
        ensures { line_of result ≡ no_line polynomials }
    {
        Line {
            direction: Vector::zero(alloc),
            shape: Shape::Nowhere,
        }
    }

    pub fn direction(&self) -> &Vector
        ensures { result.now ≡ (line_of self.now).direction }
    {
        &self.direction
    }

    /// What is zero where X is on the line.
    pub fn incidence(&self, alloc: Global, x: &Place) -> Result<Quadratic, AllocError>
        ensures { IfOk result (λ p. p ≡ (line_of self.now).incidence x.now) }
    {
        match &self.shape {
            Shape::Along(a) => cross(alloc, &self.direction, &x.minus(alloc, a)?),
            Shape::Across(normal, a) => dot(alloc, normal, &x.minus(alloc, a)?),
            Shape::Bisector(a, b) => sq_difference(alloc, &x.minus(alloc, a)?, &x.minus(alloc, b)?),
            Shape::Nowhere => one(alloc),
        }
    }
}

/// A circle: its centre, and a place on it. Contracts see the circle over polynomials.
#[derive(Drop)]
pub struct Circle {
    centre: Place,
    through: Place,
}

impl Model for Circle {
    ghost use Rattle.poly_model.specs.Polynomial.{Polynomial};
    ghost use Rattle.algebraize.specs.Curves.{Circle};

    ghost Value = { Circle Polynomial };

    ghost view = { λ k. record { centre = k.centre; through = k.through } };
}

impl Circle {
    /// The circle with this centre through a place.
    pub fn new(centre: Place, through: Place) -> Circle
        ensures centre { result.centre ≡ centre }
        ensures through { result.through ≡ through }
    {
        Circle { centre, through }
    }

    /// What stands for a circle that was not made.
    pub fn dot(alloc: Global) -> Circle
        ensures { result ≡ no_circle polynomials }
    {
        Circle {
            centre: Place::origin(alloc),
            through: Place::origin(alloc),
        }
    }

    pub fn centre(&self) -> &Place
        ensures { result.now ≡ self.now.centre }
    {
        &self.centre
    }

    /// What is zero where X is on the circle.
    pub fn incidence(&self, alloc: Global, x: &Place) -> Result<Quadratic, AllocError>
        ensures { IfOk result (λ p. p ≡ on_circle polynomials x.now self.now) }
    {
        let out = x.minus(alloc, &self.centre)?;
        let radius = self.through.minus(alloc, &self.centre)?;
        sq_difference(alloc, &out, &radius)
    }
}

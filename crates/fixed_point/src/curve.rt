// Lines and circles of the plane.
use crate::spot::Spot;

/// The line `n1*x + n2*y = c`, in ticks, with the direction `(v1, v2)`.
#[derive(Clone, Copy, Debug, PartialEq, Eq)]
pub struct LineEq {
    pub n1: i64,
    pub n2: i64,
    pub c: i128,
    pub v1: i64,
    pub v2: i64,
}

/// A circle by its centre and the square of its radius, in square ticks.
#[derive(Clone, Copy, Debug, PartialEq, Eq)]
pub struct Round {
    pub centre: Spot,
    pub square: i128,
}

// Shapes over an area.
use fixed_point::{Row, Spot};
use gcl_reader::Side;

/// A colour by its parts of red, green and blue.
#[derive(Clone, Copy, Debug, PartialEq, Eq)]
pub struct Ink {
    pub r: u8,
    pub g: u8,
    pub b: u8,
}

/// What is drawn.
#[derive(Clone, Copy, Debug, PartialEq, Eq)]
pub enum Shape {
    /// The straight line between two ends.
    Segment(Spot, Spot),
    /// The same, in dashes.
    Dashed(Spot, Spot),
    /// A circle by its centre and its radius in ticks.
    Whole(Spot, i64),
    /// A small disc.
    Dot(Spot),
    /// A small ring that hides what lies below it.
    Ring(Spot),
    /// The name of the point of a number, beside a spot.
    Label(Spot, Side, u32),
}

/// Shapes over an area from (0,0) to (w,h), in ticks of 1/10,000 mm; later ones lie above earlier ones.
#[derive(Debug, Drop)]
pub struct Picture {
    pub w: i64,
    pub h: i64,
    pub shapes: Row<(Ink, Shape)>,
}

/// A construction of a new point, whose statement holds in each of its figures.
#[derive(Clone, Copy)]
pub enum Construction {
    Midpoint,
    Foot,
    Translate,
}

/// A construction, and the three earlier points that it is made of, by their numbers.
#[derive(Clone, Copy)]
pub struct Choice {
    pub construction: Construction,
    pub a: u64,
    pub b: u64,
    pub c: u64,
}

/// The name of a point or a line: a letter and a number.
#[derive(Clone, Copy)]
pub enum Name {
    Point(u64),
    Line(u64),
}

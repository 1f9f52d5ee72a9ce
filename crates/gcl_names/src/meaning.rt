use fixed_point::Fix;

/// What a name means: a point, a line or a circle, by its number.
#[derive(Clone, Copy, Debug, PartialEq, Eq)]
pub enum Meaning {
    Point(u32),
    Line(u32),
    Circle(u32),
}

/// An argument of a command, with a number in place of its name.
#[derive(Clone, Copy)]
pub enum Ref {
    Point(u32),
    Line(u32),
    Circle(u32),
    Number(Fix),
}

/// Where a name stands beside its point: on it, or to the left, right, top or bottom, or at a corner.
#[derive(Clone, Copy, Debug, PartialEq, Eq)]
pub enum Side {
    Centre,
    L,
    R,
    T,
    B,
    Lt,
    Lb,
    Rt,
    Rb,
}

/// What a proof is asked for.
#[derive(Clone, Copy, Debug, PartialEq, Eq)]
pub enum Statement {
    Identical,
    Collinear,
    Perpendicular,
    Parallel,
    Midpoint,
    SameLength,
}

/// The word of a command, with the side or the statement that it names.
///
/// A command `mark` is `Mark(Centre)`. A ring with a name, `CmarkAt`, never has the side `Centre`.
#[derive(Clone, Copy, Debug, PartialEq, Eq)]
pub enum Word {
    Dim,
    Color,
    Prooflevel,
    Prooflimit,
    ProverTimeout,
    Point,
    Line,
    Circle,
    Intersec,
    Intersec2,
    Midpoint,
    Med,
    Perp,
    Parallel,
    Foot,
    Online,
    Oncircle,
    Translate,
    Towards,
    Drawpoint,
    Drawsegment,
    Drawdashsegment,
    Drawline,
    Drawcircle,
    Cmark,
    CmarkAt(Side),
    Mark(Side),
    Prove(Statement),
}

/// Which numbers a parameter takes: any, a whole one from 0 to 255, or the size of a picture in millimetres.
#[derive(Clone, Copy, Debug, PartialEq, Eq)]
pub enum Range {
    Any,
    Byte,
    Picture,
}

/// What an argument of a command is to be.
///
/// The reader tells a name from a number. The kinds of names are for the stage that looks the names up: a new name,
/// or one of a point, a line or a circle. A `Curve` is a line or a circle. An `OtherCurve` behind it is a circle, or a
/// line where the first is a circle.
#[derive(Clone, Copy, Debug, PartialEq, Eq)]
pub enum Parameter {
    NewPoint,
    NewLine,
    NewCircle,
    Point,
    Line,
    Circle,
    Curve,
    OtherCurve,
    Number(Range),
}

/// What the first token of a command begins: a word, or a proof whose statement stands behind a brace.
#[derive(Clone, Copy, Debug, PartialEq, Eq)]
pub enum Head {
    Word(Word),
    Prove,
}

// What a program places.
ghost use Rattle.std.specs.Prelude.{All};
ghost use Rattle.circle_cut.specs.Sizes.{IsNear, IsLaid, IsRound};

use fixed_point::{LineEq, Round, Row, Spot};

/// The points, lines and circles of a program by their numbers. All numbers have the sizes that constructions give.
#[derive(Debug, Drop)]
pub struct Spots {
    pub points: Row<Spot>,
    pub lines: Row<LineEq>,
    pub circles: Row<Round>,
    pub ghost near: { All IsNear points },
    pub ghost laid: { All IsLaid lines },
    pub ghost round: { All IsRound circles },
}

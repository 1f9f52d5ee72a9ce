// The points that commands make.
ghost use Rattle.std.specs.Prelude.{◌≡◌};
ghost use Rattle.algebraize.specs.Layout.{new_points};

use gcl_names::Deed;

/// The points that a command makes.
#[derive(Clone, Copy, Debug, PartialEq, Eq)]
pub enum NewPoints {
    NoPoint,
    /// One that may be anywhere.
    Free,
    /// One that may be anywhere on a line or a circle.
    SemiFree,
    /// One that other points determine.
    Dependent,
    /// Two that other points determine.
    TwoDependent,
}

/// The points that a command makes.
pub fn new_points(deed: &Deed) -> NewPoints
    ensures { result ≡ new_points deed.now }
{
    match deed {
        Deed::Point(..) => NewPoints::Free,
        Deed::Online(..) | Deed::Oncircle(..) => NewPoints::SemiFree,
        Deed::Intersec(..)
        | Deed::Midpoint(..)
        | Deed::Foot(..)
        | Deed::Translate(..)
        | Deed::Towards(..) => NewPoints::Dependent,
        Deed::CutLine { .. } | Deed::CutCircle { .. } => NewPoints::TwoDependent,
        Deed::Dim(..)
        | Deed::Color(..)
        | Deed::Prooflevel(..)
        | Deed::Prooflimit(..)
        | Deed::ProverTimeout(..)
        | Deed::Line(..)
        | Deed::Circle(..)
        | Deed::Med(..)
        | Deed::Perp(..)
        | Deed::Parallel(..)
        | Deed::Drawpoint(..)
        | Deed::Drawsegment(..)
        | Deed::Drawdashsegment(..)
        | Deed::Drawline(..)
        | Deed::Drawcircle(..)
        | Deed::Cmark(..)
        | Deed::CmarkAt(..)
        | Deed::Mark(..)
        | Deed::Prove(..) => NewPoints::NoPoint,
    }
}

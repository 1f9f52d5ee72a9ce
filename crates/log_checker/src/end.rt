// How a piece ends.
ghost use Rattle.std.specs.Prelude.{◌≡◌, Some};
ghost use Rattle.log_checker.specs.Checkers.{end_views};
ghost use Rattle.log_checker.specs.Fitting.{end_of};
ghost use Rattle.log_checker.specs.Views.{inside_view};

use crate::ending::Ending;
use crate::piece::Inside;
use poly_model::OwnedPoly;
use proof_steps::Node;

/// A piece ends in two children, the `+` child gaining a condition, or in a leaf.
#[derive(Debug, Drop)]
pub enum PieceEnd {
    Parted {
        plus: Node,
        minus: Node,
        gain: OwnedPoly,
    },
    Leaf(Ending),
}

/// How a piece has ended, if it has.
pub fn end_of(inside: Inside) -> Option<PieceEnd>
    ensures { end_views result ≡ end_of (Some (inside_view inside)) }
{
    match inside {
        Inside::At(_) => None,
        Inside::Solving(_) => None,
        Inside::Stopped(lists, reason) => {
            if lists.is_whole() {
                Some(PieceEnd::Leaf(Ending::Stops(reason)))
            } else {
                None
            }
        }
        Inside::Parted { plus, minus, gain } => Some(PieceEnd::Parted { plus, minus, gain }),
        Inside::Ended(ending) => Some(PieceEnd::Leaf(ending)),
    }
}

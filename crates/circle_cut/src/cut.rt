// The common points of a circle with a line and with a circle.
ghost use Rattle.std.specs.Prelude.{◌≡◌, ◌≤◌, ◌*◌, ◌+◌, pos, ◌<ℤ◌, ◌≤ℤ◌, unsigned_abs};
ghost use Rattle.edge_num.specs.Roots.{root};
ghost use Rattle.circle_cut.specs.Cuts.{discriminant, from_centre, cut_at, line_cuts, circle_cuts};
ghost use Rattle.circle_cut.specs.Lines.{normal};
ghost use Rattle.circle_cut.specs.Places.{rounded};
ghost use Rattle.circle_cut.specs.Sizes.{IsWithin, IsPlain, IsRound, IsExact};
ghost use Rattle.circle_cut.specs.Vectors.{sq};

use crate::exact::{Exact, over, round};
use crate::limits::{MOST_NORMAL, MOST_NORMAL_SQUARE, MOST_OFFSET, MOST_SQUARE};
use crate::line::{normal, offset, radical, same_spot};
use crate::vector::Vector;
use edge_num::{MOST_ROOT, Whole};
use fixed_point::{LineEq, MOST_TICKS, Round, Spot};

#[tactic(auto, unfolding(crate::specs::Cuts::discriminant))]
fn discriminant(k: &Round, a: &LineEq) -> Whole
    requires circle { IsRound k.now }
    requires line { IsPlain a.now }
    ensures value { result ≡ discriminant k.now a.now }
{
    let off = offset(&k.centre, a);
    let square = normal(a).sq::<MOST_NORMAL>();
    let reach = square.times::<MOST_NORMAL_SQUARE, MOST_SQUARE>(Whole::new(k.square));
    reach.minus(off.times::<MOST_OFFSET, MOST_OFFSET>(off))
}

// From the centre to a common point, times the square of the normal's length.
#[tactic(auto, unfolding(crate::specs::Cuts::from_centre))]
fn from_centre(s: Whole, k: &Round, a: &LineEq) -> Vector
    requires root { unsigned_abs s ≤ MOST_ROOT }
    requires circle { IsRound k.now }
    requires line { IsPlain a.now }
    ensures value { result ≡ from_centre s k.now a.now }
    ensures size { IsWithin (MOST_OFFSET * MOST_NORMAL + MOST_ROOT * MOST_NORMAL) result }
{
    let n = normal(a);
    let across = n.scaled::<MOST_OFFSET, MOST_NORMAL>(offset(&k.centre, a));
    across.plus(&n.rot().scaled::<MOST_ROOT, MOST_NORMAL>(s))
}

#[tactic(auto, unfolding(crate::specs::Cuts::cut_at))]
fn cut_at(s: Whole, k: &Round, a: &LineEq) -> Exact
    requires root { unsigned_abs s ≤ MOST_ROOT }
    requires circle { IsRound k.now }
    requires line { IsPlain a.now }
    requires some { pos 0 <ℤ sq (normal a.now) }
    ensures value { result ≡ cut_at s k.now a.now }
    ensures exact { IsExact result }
{
    let square = normal(a).sq::<MOST_NORMAL>();
    let centre = Vector::position(&k.centre).scaled::<MOST_NORMAL_SQUARE, MOST_TICKS>(square);
    over(square, &centre.plus(&from_centre(s, k, a)))
}

fn cut_spot(s: Whole, k: &Round, a: &LineEq) -> Spot
    requires root { unsigned_abs s ≡ root (unsigned_abs (discriminant k.now a.now)) }
    requires size { unsigned_abs s ≤ MOST_ROOT }
    requires meet { pos 0 ≤ℤ discriminant k.now a.now }
    requires circle { IsRound k.now }
    requires line { IsPlain a.now }
    requires some { pos 0 <ℤ sq (normal a.now) }
    ensures value { result ≡ rounded (cut_at s k.now a.now) }
{
    round(&cut_at(s, k, a))
}

/// The two points that a circle and a line have in common, which may be one.
///
/// Seen in the direction of the normal, the first is on the left. There is none where the discriminant is negative. A
/// common point is at most `MOST_CUT` from either axis.
#[tactic(auto, unfolding(crate::specs::Cuts::half_chord, crate::specs::Cuts::line_cuts))]
pub fn cut_line(k: &Round, a: &LineEq) -> Option<(Spot, Spot)>
    requires circle { IsRound k.now }
    requires line { IsPlain a.now }
    requires some { pos 0 <ℤ sq (normal a.now) }
    ensures { result ≡ line_cuts k.now a.now }
{
    let square = discriminant(k, a);
    if square.is_negative() {
        return None;
    }
    let s = square.root();
    Some((cut_spot(s, k, a), cut_spot(s.negated(), k, a)))
}

/// The two points that two circles have in common, which may be one: those of the first circle and the line through
/// both. There is none where the centres are one or the discriminant is negative.
#[tactic(auto, unfolding(crate::specs::Cuts::circle_cuts))]
pub fn cut_circle(k: &Round, m: &Round) -> Option<(Spot, Spot)>
    requires circles { IsRound k.now × IsRound m.now }
    ensures { result ≡ circle_cuts k.now m.now }
{
    if same_spot(&k.centre, &m.centre) {
        return None;
    }
    cut_line(k, &radical(k, m))
}

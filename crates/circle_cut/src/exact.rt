// Exact places, and the spots nearest to them.
ghost use Rattle.std.specs.Prelude.{◌≡◌, ◌≤◌, pos, ◌<ℤ◌, ◌≤ℤ◌, unsigned_abs, ◌≢◌};
ghost use Rattle.edge_num.specs.Numbers.{nearest};
ghost use Rattle.circle_cut.specs.Places.{over, over_signed, rounded};
ghost use Rattle.circle_cut.specs.Sizes.{IsWithin, IsExact, IsSpotWithin};

use crate::limits::MOST_CUT;
use crate::vector::Vector;
use edge_num::{MOST_DIVIDEND, MOST_DIVISOR, Whole, round_div};
use fixed_point::Spot;

/// The place `(x / d, y / d)`, in ticks.
#[derive(Clone, Copy, Debug, PartialEq, Eq)]
pub struct Exact {
    pub x: Whole,
    pub y: Whole,
    pub d: Whole,
}

/// A vector divided by a positive number.
#[tactic(auto, unfolding(crate::specs::Places::over))]
pub fn over(d: Whole, v: &Vector) -> Exact
    requires positive { pos 0 <ℤ d }
    requires small { d ≤ℤ pos MOST_DIVISOR }
    requires size { IsWithin MOST_DIVIDEND v.now }
    ensures value { result ≡ over d v.now }
    ensures exact { IsExact result }
{
    Exact { x: v.x, y: v.y, d }
}

/// A vector divided by a number that is not 0.
#[tactic(auto, unfolding(crate::specs::Places::over_signed))]
pub fn over_signed(d: Whole, v: &Vector) -> Exact
    requires some { d ≢ pos 0 }
    requires small { unsigned_abs d ≤ MOST_DIVISOR }
    requires size { IsWithin MOST_DIVIDEND v.now }
    ensures value { result ≡ over_signed d v.now }
    ensures exact { IsExact result }
{
    if d.is_negative() {
        return over(d.negated(), &v.negated());
    }
    over(d, v)
}

// The whole number nearest to `n / d`; halfway between two, the greater one.
fn nearest(n: Whole, d: Whole) -> Whole
    requires positive { pos 0 <ℤ d }
    requires small { d ≤ℤ pos MOST_DIVISOR }
    requires size { unsigned_abs n ≤ MOST_DIVIDEND }
    ensures { result ≡ nearest n d }
{
    Whole::new(round_div(n.value(), d.value()))
}

// A spot whose coordinates are those of a common point at most.
fn spot_at(x: Whole, y: Whole) -> Spot
    requires x { unsigned_abs x ≤ MOST_CUT }
    requires y { unsigned_abs y ≤ MOST_CUT }
    ensures { result ≡ record { x = x; y = y } }
{
    Spot {
        x: x.value() as i64,
        y: y.value() as i64,
    }
}

/// The spot nearest to an exact place, where that is not too far.
#[tactic(auto, unfolding(crate::specs::Places::rounded))]
pub fn round(e: &Exact) -> Spot
    requires exact { IsExact e.now }
    requires near { IsSpotWithin MOST_CUT (rounded e.now) }
    ensures { result ≡ rounded e.now }
{
    spot_at(nearest(e.x, e.d), nearest(e.y, e.d))
}

/// The coordinates of the spot nearest to an exact place, of any size.
#[tactic(auto, unfolding(crate::specs::Places::rounded))]
pub fn coordinates(e: &Exact) -> Vector
    requires { IsExact e.now }
    ensures { record { x = result.x; y = result.y } ≡ rounded e.now }
{
    Vector {
        x: nearest(e.x, e.d),
        y: nearest(e.y, e.d),
    }
}

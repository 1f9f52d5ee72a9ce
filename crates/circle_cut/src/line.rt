// Lines and their numbers.
ghost use Rattle.std.specs.Prelude.{◌≡◌, ◌≤◌, ◌*◌, pos, ◌<ℤ◌, ◌≤ℤ◌, unsigned_abs, false};
ghost use Rattle.circle_cut.specs.Lines.{normal, direction, offset, line_with, midway, farther, radical, same_spot};
ghost use Rattle.circle_cut.specs.Sizes.{IsWithin, IsNear, IsPlain, IsSpan, IsLaid, IsRound};
ghost use Rattle.circle_cut.specs.Vectors.{position, sq, way};

use crate::limits::{MOST_NORMAL, MOST_OFFSET, MOST_PLACE};
use crate::vector::Vector;
use edge_num::Whole;
use fixed_point::{LineEq, MOST_TICKS, Round, Spot};

/// The normal of a line.
#[tactic(auto, unfolding(crate::specs::Lines::normal))]
pub fn normal(l: &LineEq) -> Vector
    ensures value { result ≡ normal l.now }
    ensures x { unsigned_abs result.x ≡ unsigned_abs l.now.n1 }
    ensures y { unsigned_abs result.y ≡ unsigned_abs l.now.n2 }
{
    Vector {
        x: Whole::new(l.n1 as i128),
        y: Whole::new(l.n2 as i128),
    }
}

/// The direction of a line.
#[tactic(auto, unfolding(crate::specs::Lines::direction))]
pub fn direction(l: &LineEq) -> Vector
    ensures value { result ≡ direction l.now }
    ensures x { unsigned_abs result.x ≡ unsigned_abs l.now.v1 }
    ensures y { unsigned_abs result.y ≡ unsigned_abs l.now.v2 }
{
    Vector {
        x: Whole::new(l.v1 as i128),
        y: Whole::new(l.v2 as i128),
    }
}

/// What a spot lacks to the constant term of a line, `c - dot(n, a)`.
#[tactic(auto, unfolding(crate::specs::Lines::offset))]
pub fn offset(a: &Spot, l: &LineEq) -> Whole
    requires near { IsNear a.now }
    requires line { IsPlain l.now }
    ensures value { result ≡ offset a.now l.now }
    ensures size { unsigned_abs result ≤ MOST_OFFSET }
{
    let along = normal(l).dot::<MOST_NORMAL, MOST_TICKS>(&Vector::position(a));
    Whole::new(l.c).minus(along)
}

/// The line `dot(n, X) = c` with the direction `v`.
pub fn line_with(n: &Vector, c: Whole, v: &Vector) -> LineEq
    requires normal { IsWithin MOST_NORMAL n.now }
    requires place { unsigned_abs c ≤ MOST_PLACE }
    requires some { pos 0 <ℤ sq n.now }
    requires direction { IsSpan v.now }
    ensures value { result ≡ line_with n.now c v.now }
    ensures laid { IsLaid result }
{
    LineEq {
        n1: n.x.value() as i64,
        n2: n.y.value() as i64,
        c: c.value(),
        v1: v.x.value() as i64,
        v2: v.y.value() as i64,
    }
}

/// The line `2 dot(b - a, X) = c`.
#[tactic(auto, unfolding(crate::specs::Lines::midway))]
pub fn midway(a: &Spot, b: &Spot, c: Whole) -> LineEq
    requires near { IsNear a.now × IsNear b.now }
    requires place { unsigned_abs c ≤ MOST_PLACE }
    requires apart { pos 0 <ℤ sq (way a.now b.now) }
    ensures value { result ≡ midway a.now b.now c }
    ensures laid { IsLaid result }
{
    let way = Vector::way(a, b);
    line_with(&way.doubled(), c, &way.rot())
}

// The square of the distance from the origin.
fn square_of(a: &Spot) -> Whole
    requires near { IsNear a.now }
    ensures value { result ≡ sq (position a.now) }
    ensures from { pos 0 ≤ℤ result }
    ensures size { unsigned_abs result ≤ 2 * (MOST_TICKS * MOST_TICKS) }
{
    Vector::position(a).sq::<MOST_TICKS>()
}

/// How much greater the square of the distance from the origin is for `b` than for `a`.
#[tactic(auto, unfolding(crate::specs::Lines::farther))]
pub fn farther(a: &Spot, b: &Spot) -> Whole
    requires near { IsNear a.now × IsNear b.now }
    ensures value { result ≡ farther a.now b.now }
    ensures size { unsigned_abs result ≤ 2 * (MOST_TICKS * MOST_TICKS) }
{
    square_of(b).minus(square_of(a))
}

/// Whether two spots are one.
#[tactic(auto, using(crate::proofs::Laid::apart_from), unfolding(crate::specs::Lines::same_spot))]
pub fn same_spot(a: &Spot, b: &Spot) -> bool
    ensures value { result ≡ same_spot a.now b.now }
    ensures apart { result ≡ false → pos 0 <ℤ sq (way a.now b.now) }
{
    a.x == b.x && a.y == b.y
}

/// The line through the common points of two circles.
#[tactic(auto, unfolding(crate::specs::Lines::radical))]
pub(crate) fn radical(k: &Round, m: &Round) -> LineEq
    requires circles { IsRound k.now × IsRound m.now }
    requires apart { pos 0 <ℤ sq (way k.now.centre m.now.centre) }
    ensures value { result ≡ radical k.now m.now }
    ensures laid { IsLaid result }
{
    let squares = Whole::new(k.square).minus(Whole::new(m.square));
    midway(
        &k.centre,
        &m.centre,
        squares.plus(farther(&k.centre, &m.centre)),
    )
}

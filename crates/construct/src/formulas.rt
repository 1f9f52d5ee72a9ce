// The exact place of each construction's point, and the numbers of its line or circle.
ghost use Rattle.std.specs.Prelude.{◌≡◌, ◌≤◌, ◌*◌, pos, ◌<ℤ◌, ◌≤ℤ◌, unsigned_abs, IfSome};
ghost use Rattle.fixed_point.specs.Ticks.{ticks_of};
ghost use Rattle.circle_cut.specs.Sizes.{IsWithin, IsExact, IsPlain, IsNear, IsSpan, IsLaid, IsRound};
ghost use Rattle.circle_cut.specs.Lines.{normal};
ghost use Rattle.circle_cut.specs.Vectors.{sq, way};
ghost use Rattle.construct.specs.Formulas.{at_ticks, middle, moved, part_way, foot, meet_top, meet, turned, on_circle, through, across, bisector, circle};

use crate::limits::{CYCLE, MILLION, ROUND_PARTS, WEIGHT};
use circle_cut::{
    Exact, MOST_NORMAL, MOST_NORMAL_SQUARE, MOST_OFFSET, MOST_PLACE, MOST_SPAN, Vector, farther,
    line_with, midway, normal, offset, over, over_signed,
};
use edge_num::Whole;
use fixed_point::{Fix, LineEq, MOST_MILLIONTHS, MOST_TICKS, Round, Spot, ticks};

#[tactic(auto, unfolding(crate::specs::Formulas::at_ticks))]
pub fn at_ticks(x: Fix, y: Fix) -> Exact
    ensures value { result ≡ at_ticks (ticks_of x) (ticks_of y) }
    ensures exact { IsExact result }
{
    let place = Vector {
        x: Whole::new(ticks(x) as i128),
        y: Whole::new(ticks(y) as i128),
    };
    over(Whole::new(1), &place)
}

#[tactic(auto, unfolding(crate::specs::Formulas::middle))]
pub fn middle(a: &Spot, b: &Spot) -> Exact
    requires near { IsNear a.now × IsNear b.now }
    ensures value { result ≡ middle a.now b.now }
    ensures exact { IsExact result }
{
    over(
        Whole::new(2),
        &Vector::position(a).plus(&Vector::position(b)),
    )
}

#[tactic(auto, unfolding(crate::specs::Formulas::moved))]
pub fn moved(a: &Spot, b: &Spot, c: &Spot) -> Exact
    requires near { IsNear a.now × IsNear b.now × IsNear c.now }
    ensures value { result ≡ moved a.now b.now c.now }
    ensures exact { IsExact result }
{
    over(Whole::new(1), &Vector::position(c).plus(&Vector::way(a, b)))
}

#[tactic(auto, unfolding(crate::specs::Formulas::part_way))]
pub fn part_way(n: Whole, d: Whole, a: &Spot, b: &Spot) -> Exact
    requires part { unsigned_abs n ≤ MOST_MILLIONTHS }
    requires positive { pos 0 <ℤ d }
    requires small { d ≤ℤ pos MILLION }
    requires near { IsNear a.now × IsNear b.now }
    ensures value { result ≡ part_way n d a.now b.now }
    ensures exact { IsExact result }
{
    let from = Vector::position(a).scaled::<MILLION, MOST_TICKS>(d);
    over(
        d,
        &from.plus(&Vector::way(a, b).scaled::<MOST_MILLIONTHS, MOST_SPAN>(n)),
    )
}

#[tactic(auto, unfolding(crate::specs::Formulas::foot))]
pub fn foot(a: &Spot, l: &LineEq) -> Exact
    requires near { IsNear a.now }
    requires line { IsPlain l.now }
    requires some { pos 0 <ℤ sq (normal l.now) }
    ensures value { result ≡ foot a.now l.now }
    ensures exact { IsExact result }
{
    let n = normal(l);
    let square = n.sq::<MOST_NORMAL>();
    let from = Vector::position(a).scaled::<MOST_NORMAL_SQUARE, MOST_TICKS>(square);
    let aside = n.scaled::<MOST_OFFSET, MOST_NORMAL>(offset(a, l));
    over(square, &from.plus(&aside))
}

// What stands above the determinant of two lines.
#[tactic(auto, unfolding(crate::specs::Formulas::meet_top))]
fn meet_top(l: &LineEq, m: &LineEq) -> Vector
    requires first { IsPlain l.now }
    requires second { IsPlain m.now }
    ensures value { result ≡ meet_top l.now m.now }
    ensures size { IsWithin (2 * (MOST_PLACE * MOST_NORMAL)) result }
{
    let n = normal(l);
    let o = normal(m);
    let c = Whole::new(l.c);
    let e = Whole::new(m.c);
    Vector {
        x: c.times::<MOST_PLACE, MOST_NORMAL>(o.y)
            .minus(n.y.times::<MOST_NORMAL, MOST_PLACE>(e)),
        y: n.x
            .times::<MOST_NORMAL, MOST_PLACE>(e)
            .minus(c.times::<MOST_PLACE, MOST_NORMAL>(o.x)),
    }
}

#[tactic(auto, unfolding(crate::specs::Formulas::meet))]
pub fn meet(l: &LineEq, m: &LineEq) -> Option<Exact>
    requires first { IsPlain l.now }
    requires second { IsPlain m.now }
    ensures value { result ≡ meet l.now m.now }
    ensures exact { IfSome result (λ e. IsExact e) }
{
    let determinant = normal(l).cross::<MOST_NORMAL, MOST_NORMAL>(&normal(m));
    if determinant.is_zero() {
        return None;
    }
    Some(over_signed(determinant, &meet_top(l, m)))
}

// The way from a centre, turned and scaled by a share.
#[tactic(auto, unfolding(crate::specs::Formulas::turned))]
fn turned(t: Whole, w: &Vector) -> Vector
    requires share { unsigned_abs t ≤ CYCLE }
    requires size { IsWithin MOST_SPAN w.now }
    ensures value { result ≡ turned t w.now }
    ensures size { IsWithin (2 * (WEIGHT * MOST_SPAN)) result }
{
    let along = Whole::new(MILLION as i128).minus(t.times::<CYCLE, CYCLE>(t));
    let aside = Whole::new(ROUND_PARTS as i128).times::<ROUND_PARTS, CYCLE>(t);
    let part = w.scaled::<WEIGHT, MOST_SPAN>(along);
    part.plus(&w.rot().scaled::<WEIGHT, MOST_SPAN>(aside))
}

#[tactic(auto, unfolding(crate::specs::Formulas::on_circle))]
pub fn on_circle(t: Whole, o: &Spot, a: &Spot) -> Exact
    requires share { unsigned_abs t ≤ CYCLE }
    requires near { IsNear o.now × IsNear a.now }
    ensures value { result ≡ on_circle t o.now a.now }
    ensures exact { IsExact result }
{
    let d = Whole::new(MILLION as i128).plus(t.times::<CYCLE, CYCLE>(t));
    let centre = Vector::position(o).scaled::<WEIGHT, MOST_TICKS>(d);
    over(d, &centre.plus(&turned(t, &Vector::way(o, a))))
}

/// The line through a spot in a direction.
#[tactic(auto, unfolding(crate::specs::Formulas::through))]
pub fn through(a: &Spot, v: &Vector) -> LineEq
    requires near { IsNear a.now }
    requires direction { IsSpan v.now }
    ensures value { result ≡ through a.now v.now }
    ensures laid { IsLaid result }
{
    let n = v.rot();
    let c = n.dot::<MOST_SPAN, MOST_TICKS>(&Vector::position(a));
    line_with(&n, c, v)
}

/// The line through a spot that is perpendicular to a direction.
#[tactic(auto, unfolding(crate::specs::Formulas::across))]
pub fn across(a: &Spot, v: &Vector) -> LineEq
    requires near { IsNear a.now }
    requires direction { IsSpan v.now }
    ensures value { result ≡ across a.now v.now }
    ensures laid { IsLaid result }
{
    let c = v.dot::<MOST_SPAN, MOST_TICKS>(&Vector::position(a));
    line_with(v, c, &v.rot())
}

/// The perpendicular bisector of two spots.
#[tactic(auto, unfolding(crate::specs::Formulas::bisector))]
pub fn bisector(a: &Spot, b: &Spot) -> LineEq
    requires near { IsNear a.now × IsNear b.now }
    requires apart { pos 0 <ℤ sq (way a.now b.now) }
    ensures value { result ≡ bisector a.now b.now }
    ensures laid { IsLaid result }
{
    midway(a, b, farther(a, b))
}

/// The circle round a spot through another.
#[tactic(auto, unfolding(crate::specs::Formulas::circle))]
pub fn circle(o: &Spot, a: &Spot) -> Round
    requires near { IsNear o.now × IsNear a.now }
    ensures value { result ≡ circle o.now a.now }
    ensures round { IsRound result }
{
    Round {
        centre: *o,
        square: Vector::way(o, a).sq::<MOST_SPAN>().value(),
    }
}

// The part of a line in an area.
ghost use Rattle.std.specs.Prelude.{◌≡◌, ◌≤◌, ◌*◌, pos, neg_ℤ, ◌<ℤ◌, ◌≤ℤ◌, ◌-ℤ◌, ◌*ℤ◌, unsigned_abs, IfSome};
ghost use Rattle.circle_cut.specs.Sizes.{IsNear};
ghost use Rattle.line_clip.specs.Sizes.{IsArea, IsSloping, IsEnd, AreEnds, IsMirrored, AreMirrored, AreNear, IsLine};
ghost use Rattle.line_clip.specs.Ends.{upright, level, falling_first, falling_last, falling, mirrored_place, mirrored, sloped, line_part, drawn_line, rounded_ends, LinePartIsThePart, EndsAreOne};

use circle_cut::{Exact, MOST_NORMAL, MOST_PLACE, round};
use edge_num::Whole;
use fixed_point::{MOST_TICKS, Spot};

/// The area from (0, 0) to (w, h).
#[derive(Clone, Copy)]
pub struct Area {
    pub w: Whole,
    pub h: Whole,
}

/// The line n1 x + n2 y = c.
#[derive(Clone, Copy)]
pub struct Line {
    pub n1: Whole,
    pub n2: Whole,
    pub c: Whole,
}

/// The greatest size of the numerator of an end.
pub(crate) const MOST_END: u64 = 10 * MOST_PLACE;

/// The ends that `line_part` gives are those of the part.
pub fn line_part_is_the_part()
    ensures { LinePartIsThePart }
{}

/// Any two ways to name the ends of a part are rounded to the same spots.
pub fn ends_are_one()
    ensures { EndsAreOne }
{}

fn upright(a: &Area, n: Whole, c: Whole) -> Option<(Exact, Exact)>
    requires area { IsArea a.now }
    requires positive { pos 0 <ℤ n }
    requires small { unsigned_abs n ≤ MOST_NORMAL }
    requires place { unsigned_abs c ≤ 2 * MOST_PLACE }
    ensures value { result ≡ upright a.now n c }
    ensures exact { IfSome result (λ ends. AreEnds ends) }
{
    let zero = Whole::new(0);
    if zero.at_most(c) && c.at_most(a.w.times::<MOST_TICKS, MOST_NORMAL>(n)) {
        let top = a.h.times::<MOST_TICKS, MOST_NORMAL>(n);
        return Some((
            Exact {
                x: c,
                y: zero,
                d: n,
            },
            Exact { x: c, y: top, d: n },
        ));
    }
    None
}

fn level(a: &Area, n: Whole, c: Whole) -> Option<(Exact, Exact)>
    requires area { IsArea a.now }
    requires positive { pos 0 <ℤ n }
    requires small { unsigned_abs n ≤ MOST_NORMAL }
    requires place { unsigned_abs c ≤ 2 * MOST_PLACE }
    ensures value { result ≡ level a.now n c }
    ensures exact { IfSome result (λ ends. AreEnds ends) }
{
    let zero = Whole::new(0);
    if zero.at_most(c) && c.at_most(a.h.times::<MOST_TICKS, MOST_NORMAL>(n)) {
        let right = a.w.times::<MOST_TICKS, MOST_NORMAL>(n);
        return Some((
            Exact {
                x: zero,
                y: c,
                d: n,
            },
            Exact {
                x: right,
                y: c,
                d: n,
            },
        ));
    }
    None
}

fn falling_first(a: &Area, m: Whole, n: Whole, c: Whole) -> Exact
    requires area { IsArea a.now }
    requires slope { IsSloping m n }
    requires place { unsigned_abs c ≤ 2 * MOST_PLACE }
    ensures value { result ≡ falling_first a.now m n c }
    ensures exact { IsEnd result }
{
    let top = a.h.times::<MOST_TICKS, MOST_NORMAL>(n);
    if c.at_most(top) {
        return Exact {
            x: Whole::new(0),
            y: c,
            d: n,
        };
    }
    Exact {
        x: c.minus(top),
        y: a.h.times::<MOST_TICKS, MOST_NORMAL>(m),
        d: m,
    }
}

fn falling_last(a: &Area, m: Whole, n: Whole, c: Whole) -> Exact
    requires area { IsArea a.now }
    requires slope { IsSloping m n }
    requires place { unsigned_abs c ≤ 2 * MOST_PLACE }
    ensures value { result ≡ falling_last a.now m n c }
    ensures exact { IsEnd result }
{
    let right = a.w.times::<MOST_TICKS, MOST_NORMAL>(m);
    if right.at_most(c) {
        return Exact {
            x: a.w.times::<MOST_TICKS, MOST_NORMAL>(n),
            y: c.minus(right),
            d: n,
        };
    }
    Exact {
        x: c,
        y: Whole::new(0),
        d: m,
    }
}

fn falling(a: &Area, m: Whole, n: Whole, c: Whole) -> Option<(Exact, Exact)>
    requires area { IsArea a.now }
    requires slope { IsSloping m n }
    requires place { unsigned_abs c ≤ 2 * MOST_PLACE }
    ensures value { result ≡ falling a.now m n c }
    ensures exact { IfSome result (λ ends. AreEnds ends) }
{
    let corner = a
        .w
        .times::<MOST_TICKS, MOST_NORMAL>(m)
        .plus(a.h.times::<MOST_TICKS, MOST_NORMAL>(n));
    if Whole::new(0).below(c) && c.below(corner) {
        return Some((falling_first(a, m, n, c), falling_last(a, m, n, c)));
    }
    None
}

fn mirrored_place(a: &Area, p: &Exact) -> Exact
    requires area { IsArea a.now }
    requires end { IsEnd p.now }
    ensures value { result ≡ mirrored_place a.now p.now }
    ensures size { IsMirrored result }
{
    Exact {
        x: p.x,
        y: a.h.times::<MOST_TICKS, MOST_NORMAL>(p.d).minus(p.y),
        d: p.d,
    }
}

fn mirrored(a: &Area, ends: Option<(Exact, Exact)>) -> Option<(Exact, Exact)>
    requires area { IsArea a.now }
    requires ends { IfSome ends (λ e. AreEnds e) }
    ensures value { result ≡ mirrored a.now ends }
    ensures exact { IfSome result (λ e. AreMirrored e) }
{
    match ends {
        Some((first, last)) => Some((mirrored_place(a, &first), mirrored_place(a, &last))),
        None => None,
    }
}

fn sloped(a: &Area, m: Whole, n: Whole, c: Whole) -> Option<(Exact, Exact)>
    requires area { IsArea a.now }
    requires positive { pos 0 <ℤ n }
    requires small { unsigned_abs n ≤ MOST_NORMAL }
    requires along { unsigned_abs m ≤ MOST_NORMAL }
    requires place { unsigned_abs c ≤ MOST_PLACE }
    ensures value { result ≡ sloped a.now m n c }
    ensures exact { IfSome result (λ e. AreMirrored e) }
{
    if m.is_zero() {
        return level(a, n, c);
    }
    if m.is_negative() {
        let turned = a.h.times::<MOST_TICKS, MOST_NORMAL>(n).minus(c);
        return mirrored(a, falling(a, m.negated(), n, turned));
    }
    falling(a, m, n, c)
}

/// The two ends of the part of a line in an area, where it has more than one place.
#[tactic(auto, unfolding(crate::specs::Ends::line_part))]
pub fn line_part(a: &Area, l: &Line) -> Option<(Exact, Exact)>
    requires area { IsArea a.now }
    requires line { IsLine l.now }
    ensures value { result ≡ line_part a.now l.now }
    ensures exact { IfSome result (λ e. AreMirrored e) }
{
    if l.n2.is_zero() {
        if l.n1.is_negative() {
            return upright(a, l.n1.negated(), l.c.negated());
        }
        return upright(a, l.n1, l.c);
    }
    if l.n2.is_negative() {
        return sloped(a, l.n1.negated(), l.n2.negated(), l.c.negated());
    }
    sloped(a, l.n1, l.n2, l.c)
}

// The ends, with what their places in the area mean for their sizes.
fn near_part(a: &Area, l: &Line) -> Option<(Exact, Exact)>
    requires area { IsArea a.now }
    requires line { IsLine l.now }
    ensures value { result ≡ line_part a.now l.now }
    ensures exact { IfSome result (λ e. AreMirrored e) }
    ensures near { IfSome result (λ e. AreNear e) }
{
    line_part(a, l)
}

/// The ends of the part of a line in an area, each rounded to a spot.
#[tactic(auto, unfolding(crate::specs::Ends::drawn_line))]
pub fn drawn_line(a: &Area, l: &Line) -> Option<(Spot, Spot)>
    requires area { IsArea a.now }
    requires line { IsLine l.now }
    ensures value { result ≡ drawn_line a.now l.now }
    ensures near { IfSome result (λ ends. IsNear ends.0 × IsNear ends.1) }
{
    match near_part(a, l) {
        Some((first, last)) => Some((round(&first), round(&last))),
        None => None,
    }
}

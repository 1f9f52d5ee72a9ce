// What each deed makes.
ghost use Rattle.std.specs.Prelude.{◌≡◌, ◌<◌, ◌≤◌, ◌^◌, unsigned_abs, IfOk, IfSome};
ghost use Rattle.circle_cut.specs.Sizes.{IsNear, IsExact};
ghost use Rattle.construct.specs.Made.{share, next_share, joined, halved, met, cut, made_by, Uses, IsFit};

use crate::construction::Construction;
use crate::formulas::{
    across, at_ticks, bisector, circle, foot, meet, middle, moved, on_circle, part_way, through,
};
use crate::limits::{CYCLE, MILLION, PARTS, STRIDE};
use circle_cut::{Exact, Vector, cut_circle, cut_line, direction, same_spot};
use edge_num::Whole;
use fixed_point::{LineEq, Round, Spot};
use gcl_names::Deed;
use gcl_reader::Kind;

/// What a deed makes.
#[derive(Debug, Drop)]
pub enum Made {
    Nothing,
    Point(Exact),
    SemiFree(Exact),
    Points(Spot, Spot),
    Line(LineEq),
    Circle(Round),
}

// The share of the next semi-free point.
fn next_share(f: &Construction) -> Whole
    ensures value { result ≡ next_share f.now }
    ensures size { unsigned_abs result ≤ CYCLE }
{
    let number = f.semi_free() as u128 + 1;
    Whole::new((1 + STRIDE as u128 * number % CYCLE as u128) as i128)
}

#[tactic(auto, unfolding(crate::specs::Made::joined))]
fn joined(a: &Spot, b: &Spot) -> Result<Made, Kind>
    requires near { IsNear a.now × IsNear b.now }
    ensures value { result ≡ joined a.now b.now }
    ensures fit { IfOk result (λ m. IsFit m) }
{
    if same_spot(a, b) {
        return Err(Kind::SamePoints);
    }
    Ok(Made::Line(through(a, &Vector::way(a, b))))
}

#[tactic(auto, unfolding(crate::specs::Made::halved))]
fn halved(a: &Spot, b: &Spot) -> Result<Made, Kind>
    requires near { IsNear a.now × IsNear b.now }
    ensures value { result ≡ halved a.now b.now }
    ensures fit { IfOk result (λ m. IsFit m) }
{
    if same_spot(a, b) {
        return Err(Kind::SamePoints);
    }
    Ok(Made::Line(bisector(a, b)))
}

#[tactic(auto, unfolding(crate::specs::Made::met))]
fn met(place: Option<Exact>) -> Result<Made, Kind>
    requires { IfSome place (λ e. IsExact e) }
    ensures value { result ≡ met place }
    ensures fit { IfOk result (λ m. IsFit m) }
{
    match place {
        Some(e) => Ok(Made::Point(e)),
        None => Err(Kind::NoMeet),
    }
}

#[tactic(auto, unfolding(crate::specs::Made::cut))]
fn cut(points: Option<(Spot, Spot)>) -> Result<Made, Kind>
    ensures value { result ≡ cut points }
    ensures fit { IfOk result (λ m. IsFit m) }
{
    match points {
        Some((first, second)) => Ok(Made::Points(first, second)),
        None => Err(Kind::NoMeet),
    }
}

/// What a deed makes, or why it cannot be placed.
pub fn made_by(deed: &Deed, f: &Construction) -> Result<Made, Kind>
    requires { Uses f.now deed.now }
    ensures value { result ≡ made_by deed.now f.now }
    ensures fit { IfOk result (λ m. IsFit m) }
{
    match deed {
        Deed::Point(_, x, y) => Ok(Made::Point(at_ticks(*x, *y))),
        Deed::Line(_, a, b) => joined(f.point(*a), f.point(*b)),
        Deed::Circle(_, o, a) => Ok(Made::Circle(circle(f.point(*o), f.point(*a)))),
        Deed::Intersec(_, a, b) => met(meet(f.line(*a), f.line(*b))),
        Deed::CutLine { circle, line, .. } => cut(cut_line(f.circle(*circle), f.line(*line))),
        Deed::CutCircle { first, second, .. } => cut(cut_circle(
            f.circle(*first),
            f.circle(*second),
        )),
        Deed::Midpoint(_, a, b) => Ok(Made::Point(middle(f.point(*a), f.point(*b)))),
        Deed::Med(_, a, b) => halved(f.point(*a), f.point(*b)),
        Deed::Perp(_, a, l) => Ok(Made::Line(across(f.point(*a), &direction(f.line(*l))))),
        Deed::Parallel(_, a, l) => Ok(Made::Line(through(f.point(*a), &direction(f.line(*l))))),
        Deed::Foot(_, a, l) => Ok(Made::Point(foot(f.point(*a), f.line(*l)))),
        Deed::Online(_, a, b) => {
            let parts = Whole::new(PARTS as i128);
            Ok(Made::SemiFree(part_way(next_share(f), parts, f.point(*a), f.point(*b))))
        }
        Deed::Oncircle(_, o, a) => Ok(Made::SemiFree(on_circle(
            next_share(f),
            f.point(*o),
            f.point(*a),
        ))),
        Deed::Translate(_, a, b, c) => Ok(Made::Point(moved(
            f.point(*a),
            f.point(*b),
            f.point(*c),
        ))),
        Deed::Towards(_, a, b, r) => {
            let (ratio, one) = (
                Whole::new(r.millionths() as i128),
                Whole::new(MILLION as i128),
            );
            Ok(Made::Point(part_way(ratio, one, f.point(*a), f.point(*b))))
        }
        Deed::Dim(..)
        | Deed::Color(..)
        | Deed::Prooflevel(_)
        | Deed::Prooflimit(_)
        | Deed::ProverTimeout(_)
        | Deed::Drawpoint(_)
        | Deed::Drawsegment(..)
        | Deed::Drawdashsegment(..)
        | Deed::Drawline(_)
        | Deed::Drawcircle(_)
        | Deed::Cmark(_)
        | Deed::CmarkAt(..)
        | Deed::Mark(..)
        | Deed::Prove(..) => Ok(Made::Nothing),
    }
}

// Vectors of small whole numbers, and the frame in which a figure is seen.
ghost use Rattle.std.specs.Prelude.{◌≡◌, ◌≤◌, ◌++◌, IfOk, unsigned_abs};
ghost use Rattle.poly_model.specs.Domain.{integers};
ghost use Rattle.gcl_reader.specs.Figure.{IsSmall, AreSmall};
ghost use Rattle.gcl_reader.specs.declared.limits.TheConstants.{MOST_COORDINATE};
ghost use Rattle.algebraize.specs.Vectors.{minus, dot, cross};
ghost use Rattle.algebraize.specs.Figure.{place_of};
ghost use Rattle.placement.specs.Placing.{free_points, frame_of, frame_with, is_first, is_second};
ghost use Rattle.placement.specs.Images.{are_same, is_flat};
ghost use Rattle.placement.specs.declared.image.TheConstants.{MOST_IMAGE};

use edge_num::Whole;
use gcl_names::{Act, Deed};
use std::alloc::{AllocError, Global};

/// The place of a point.
pub fn place_of(figure: &[(i64, i64)], point: u32) -> (i64, i64)
    requires { AreSmall figure.now }
    ensures value { result ≡ place_of integers figure.now point }
    ensures small { IsSmall MOST_COORDINATE result }
{
    match figure.get(point as usize) {
        Some(place) => *place,
        None => (0, 0),
    }
}

/// The vector from q to p.
pub fn minus(p: (i64, i64), q: (i64, i64)) -> (Whole, Whole)
    requires p { IsSmall MOST_COORDINATE p }
    requires q { IsSmall MOST_COORDINATE q }
    ensures value { result ≡ minus integers p q }
    ensures small { IsSmall 2000000 result }
{
    (
        Whole::new(p.0 as i128).plus(Whole::new(q.0 as i128).negated()),
        Whole::new(p.1 as i128).plus(Whole::new(q.1 as i128).negated()),
    )
}

pub fn dot(p: &(Whole, Whole), q: &(Whole, Whole)) -> Whole
    requires p { IsSmall 2000000 p.now }
    requires q { IsSmall 2000000 q.now }
    ensures value { result ≡ dot integers p.now q.now }
    ensures size { unsigned_abs result ≤ MOST_IMAGE }
{
    let first = p.0.times::<2_000_000, 2_000_000>(q.0);
    let second = p.1.times::<2_000_000, 2_000_000>(q.1);
    first.plus(second)
}

pub fn cross(p: &(Whole, Whole), q: &(Whole, Whole)) -> Whole
    requires p { IsSmall 2000000 p.now }
    requires q { IsSmall 2000000 q.now }
    ensures value { result ≡ cross integers p.now q.now }
    ensures size { unsigned_abs result ≤ MOST_IMAGE }
{
    let first = p.0.times::<2_000_000, 2_000_000>(q.1);
    let second = p.1.times::<2_000_000, 2_000_000>(q.0);
    first.plus(second.negated())
}

/// The numbers of the free points, in order of definition.
#[tactic(auto, unfolding(crate::specs::Placing::free_points))]
pub fn free_points(alloc: Global, acts: &[Act]) -> Result<Vec<u32>, AllocError>
    ensures { IfOk result (λ v. v.items ≡ free_points acts.now) }
{
    let mut points = Vec::new(alloc);
    let mut rest = acts;
    while let [act, after @ ..] = rest {
        if let Deed::Point(p, _, _) = &act.deed {
            points.push(*p)?;
        }
        rest = after;
    }
    Ok(points)
}

pub fn is_first(frees: &[u32], point: u32) -> bool
    ensures { result ≡ is_first frees.now point }
{
    match frees {
        [first, ..] => *first == point,
        [] => false,
    }
}

pub fn is_second(frees: &[u32], point: u32) -> bool
    ensures { result ≡ is_second frees.now point }
{
    match frees {
        [_, second, ..] => *second == point,
        _ => false,
    }
}

fn are_same(p: (i64, i64), q: (i64, i64)) -> bool
    ensures { result ≡ are_same p q }
{
    p.0 == q.0 && p.1 == q.1
}

/// The first two free points are at one place.
pub fn is_flat(figure: &[(i64, i64)], frees: &[u32]) -> bool
    requires { AreSmall figure.now }
    ensures { result ≡ is_flat figure.now frees.now }
{
    match frees {
        [first, second, ..] => are_same(place_of(figure, *first), place_of(figure, *second)),
        _ => false,
    }
}

/// The place that becomes the origin, and the direction that becomes that of the first axis.
pub fn frame_of(figure: &[(i64, i64)], frees: &[u32]) -> ((i64, i64), (Whole, Whole))
    requires { AreSmall figure.now }
    ensures value { frame_with result.0 result.1 ≡ frame_of integers figure.now frees.now }
    ensures origin { IsSmall MOST_COORDINATE result.0 }
    ensures axis { IsSmall 2000000 result.1 }
{
    match frees {
        [] => ((0, 0), (Whole::new(1), Whole::new(0))),
        [first] => (place_of(figure, *first), (Whole::new(1), Whole::new(0))),
        [first, second, ..] => {
            let origin = place_of(figure, *first);
            let end = place_of(figure, *second);
            (origin, minus(end, origin))
        }
    }
}

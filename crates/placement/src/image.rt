// The image point of a figure of whole numbers.
ghost use Rattle.std.specs.Prelude.{◌≡◌, ◌≤◌, ◌++◌, [], ◌∷◌, IfOk, OnOk, unsigned_abs};
ghost use Rattle.poly_model.specs.Domain.{integers};
ghost use Rattle.gcl_names.specs.Sound.{AllFollow, IsSound, after_all, nothing};
ghost use Rattle.gcl_reader.specs.Figure.{AreSmall, IsSmall};
ghost use Rattle.gcl_reader.specs.declared.limits.TheConstants.{MOST_COORDINATE};
ghost use Rattle.gcl_names.specs.declared.limits.TheConstants.{MOST_POINTS};
ghost use Rattle.placement.specs.Placing.{frame_of, frame_with, listed, listed_to};
ghost use Rattle.placement.specs.Images.{AreBounded, IsBounded, count_of, image_before, image_of};

use crate::frame::{
    cross, dot, frame_of, free_points, is_first, is_flat, is_second, minus, place_of,
};
use algebraize::{NewPoints, acts_before, new_points};
use edge_num::Whole;
use gcl_names::{Act, Program};
use poly_model::Row;
use std::alloc::{AllocError, Global};

/// The greatest size of a member of an image point.
pub const MOST_IMAGE: u64 = 8_000_000_000_000;

/// Where a figure of whole numbers comes to stand: its image point, or nowhere, since the points that are to be at the origin
/// and on the axis are at one place.
#[derive(Debug, Drop)]
pub enum Image {
    Point(Row<i128>),
    Flat,
}

fn count_of(kind: NewPoints) -> u32
    ensures value { result ≡ count_of kind }
    ensures few { result ≤ 2 }
{
    match kind {
        NewPoints::NoPoint => 0,
        NewPoints::Free | NewPoints::SemiFree | NewPoints::Dependent => 1,
        NewPoints::TwoDependent => 2,
    }
}

/// How many points these acts make.
fn points_made(acts: &[Act]) -> u32
    requires follow { AllFollow nothing acts.now }
    requires few { (after_all nothing acts.now).points ≤ MOST_POINTS }
    ensures { result ≡ (after_all nothing acts.now).points }
{
    let mut count = 0;
    let mut rest = acts;
    while let Some((act, after)) = rest.split_first() {
        count += count_of(new_points(&act.deed));
        rest = after;
    }
    count
}

/// Puts a member behind the others.
fn push(out: &mut Vec<i128>, member: Whole) -> Result<(), AllocError>
    requires size { unsigned_abs member ≤ MOST_IMAGE }
    requires bounded { AreBounded out.old.items }
    ensures items { OnOk result (out.new.items ≡ out.old.items ++ member ∷ []) }
    ensures bounded { OnOk result (AreBounded out.new.items) }
{
    out.push(member.value())?;
    Ok(())
}

/// Puts what a point gives of its image behind the others.
fn push_listed(
    origin: (i64, i64),
    axis: &(Whole, Whole),
    figure: &[(i64, i64)],
    frees: &[u32],
    point: u32,
    out: &mut Vec<i128>,
) -> Result<(), AllocError>
    requires small { AreSmall figure.now }
    requires origin { IsSmall MOST_COORDINATE origin }
    requires axis { IsSmall 2000000 axis.now }
    requires bounded { AreBounded out.old.items }
    ensures items { OnOk result (out.new.items ≡ out.old.items
        ++ listed integers (frame_with origin axis.now) figure.now frees.now point) }
    ensures bounded { OnOk result (AreBounded out.new.items) }
{
    if is_first(frees, point) {
        return Ok(());
    }
    if is_second(frees, point) {
        return push(out, dot(axis, axis));
    }
    let v = minus(place_of(figure, point), origin);
    let along = dot(axis, &v);
    let across = cross(axis, &v);
    push(out, along)?;
    push(out, across)?;
    Ok(())
}

/// The image point of a figure of these acts, which make so many points.
fn image_point(
    alloc: Global,
    frees: &[u32],
    count: u32,
    figure: &[(i64, i64)],
) -> Result<Vec<i128>, AllocError>
    requires { AreSmall figure.now }
    ensures value { IfOk result (λ v. v.items
        ≡ listed_to integers (frame_of integers figure.now frees.now) figure.now frees.now count) }
    ensures bounded { IfOk result (λ v. AreBounded v.items) }
{
    let frame = frame_of(figure, frees);
    let mut point = Vec::new(alloc);
    for i in 0..count {
        push_listed(frame.0, &frame.1, figure, frees, i, &mut point)?;
    }
    Ok(point)
}

/// Where a figure of whole numbers comes to stand that has these acts constructed.
fn image_before(alloc: Global, acts: &[Act], figure: &[(i64, i64)]) -> Result<Image, AllocError>
    requires small { AreSmall figure.now }
    requires follow { AllFollow nothing acts.now }
    requires few { (after_all nothing acts.now).points ≤ MOST_POINTS }
    ensures value { IfOk result (λ i. i ≡ image_before acts.now figure.now) }
    ensures bounded { IfOk result IsBounded }
{
    let frees = free_points(alloc, acts)?;
    if is_flat(figure, &frees) {
        return Ok(Image::Flat);
    }
    let point = image_point(alloc, &frees, points_made(acts), figure)?;
    Ok(Image::Point(Row::from_vec(point)))
}

/// Where a figure of whole numbers comes to stand that has constructed what stands before a prove, counted from 0; before
/// the end, where there is no such prove. A point for which it has no place is at the origin.
pub fn image_of(
    alloc: Global,
    program: &Program,
    prove: u32,
    figure: &[(i64, i64)],
) -> Result<Image, AllocError>
    requires sound { IsSound program.now }
    requires small { AreSmall figure.now }
    ensures value { IfOk result (λ i. i ≡ image_of program.now.acts prove figure.now) }
    ensures bounded { IfOk result IsBounded }
{
    let acts = program.acts.as_slice();
    image_before(alloc, &acts[..acts_before(acts, prove)], figure)
}

// Drawing a program.
ghost use Rattle.std.specs.Prelude.{◌≡◌, ◌<◌, ◌≤◌, pos, ◌≤ℤ◌, length, OnOk, IfOk, IfSome, Ok};
ghost use Rattle.gcl_names.specs.Sound.{IsSound};
ghost use Rattle.circle_cut.specs.Sizes.{IsLaid, IsNear, IsRound};
ghost use Rattle.construct.specs.Placing.{spots_of};
ghost use Rattle.construct.specs.Spots.{positions_of};
ghost use Rattle.line_clip.specs.Ends.{drawn_line};
ghost use Rattle.line_clip.specs.Sizes.{IsArea, IsLine};
ghost use Rattle.picture.specs.Drawable.{Draws, IsSized};
ghost use Rattle.picture.specs.Drawing.{area_of, blank, circle_at, drawn, drawn_from, line_at, line_of, picture_of, radius_of, sized, spot_at, with_ends};
ghost use Rattle.picture.specs.Shapes.{IsDrawable, IsExtent};

use crate::canvas::Canvas;
use crate::shape::{Ink, Picture, Shape};
use circle_cut::MOST_NORMAL;
use construct::Spots;
use edge_num::{Whole, isqrt};
use fixed_point::{LineEq, Round, Spot, ticks};
use gcl_names::{Deed, Program};
use line_clip::{Area, Line, drawn_line};
use std::alloc::{AllocError, Global};

/// The width of a picture without a size, in ticks.
pub(crate) const WIDTH: u64 = 1_400_000;

/// The height of a picture without a size, in ticks.
pub(crate) const HEIGHT: u64 = 1_000_000;

fn point(spots: &Spots, p: u32) -> &Spot
    requires { p < length spots.now.points }
    ensures value { result.now ≡ spot_at (positions_of spots.now) p }
    ensures near { IsNear result.now }
{
    &spots.points.as_slice()[p as usize]
}

fn line(spots: &Spots, l: u32) -> &LineEq
    requires { l < length spots.now.lines }
    ensures value { result.now ≡ line_at (positions_of spots.now) l }
    ensures laid { IsLaid result.now }
{
    &spots.lines.as_slice()[l as usize]
}

fn circle(spots: &Spots, k: u32) -> &Round
    requires { k < length spots.now.circles }
    ensures value { result.now ≡ circle_at (positions_of spots.now) k }
    ensures round { IsRound result.now }
{
    &spots.circles.as_slice()[k as usize]
}

// The area of a width and a height.
fn area(w: i64, h: i64) -> Area
    requires { IsExtent w × IsExtent h }
    ensures value { result ≡ record { w = w; h = h } }
    ensures area { IsArea result }
{
    Area {
        w: Whole::new(w as i128),
        h: Whole::new(h as i128),
    }
}

// The area after a deed: a size replaces the one before.
fn sized(deed: &Deed, a: Area) -> Area
    requires size { IsSized deed.now }
    requires area { IsArea a }
    ensures value { result ≡ sized deed.now a }
    ensures area { IsArea result }
{
    match deed {
        Deed::Dim(w, h) => area(ticks(*w), ticks(*h)),
        _ => a,
    }
}

// The area of a program.
fn area_of(program: &Program) -> Area
    requires { IsSound program.now }
    ensures value { result ≡ area_of program.now.acts }
    ensures area { IsArea result }
{
    let acts = program.acts.as_slice();
    let mut a = area(WIDTH as i64, HEIGHT as i64);
    for act in acts {
        a = sized(&act.deed, a);
    }
    a
}

fn line_of(l: &LineEq) -> Line
    requires { IsLaid l.now }
    ensures value { result ≡ line_of l.now }
    ensures line { IsLine result }
{
    Line {
        n1: Whole::new(l.n1 as i128),
        n2: Whole::new(l.n2 as i128),
        c: Whole::new(l.c),
    }
}

#[tactic(auto, unfolding(crate::specs::Drawing::with_ends))]
fn add_ends(ends: Option<(Spot, Spot)>, canvas: &mut Canvas) -> Result<(), AllocError>
    requires { IfSome ends (λ e. IsNear e.0 × IsNear e.1) }
    ensures { OnOk result (canvas.new ≡ (canvas.old.0, with_ends ends canvas.old.1)) }
{
    match ends {
        Some((first, last)) => canvas.add(Shape::Segment(first, last)),
        None => Ok(()),
    }
}

// The radius of a circle, rounded down.
#[tactic(auto, using(edge_num::proofs::Roots::root_below_radius))]
fn radius(k: &Round) -> i64
    requires { IsRound k.now }
    ensures value { result ≡ radius_of k.now }
    ensures from { pos 0 ≤ℤ result }
    ensures to { result ≤ℤ pos MOST_NORMAL }
{
    isqrt(k.square.unsigned_abs()) as i64
}

// Draws what a deed says.
fn draw_deed(deed: &Deed, spots: &Spots, a: &Area, canvas: &mut Canvas) -> Result<(), AllocError>
    requires used { Draws (positions_of spots.now) deed.now }
    requires named { length spots.now.points ≤ canvas.old.0 }
    requires area { IsArea a.now }
    ensures { OnOk result (canvas.new
        ≡ (canvas.old.0, drawn a.now (positions_of spots.now) deed.now canvas.old.1)) }
{
    match deed {
        Deed::Color(r, g, b) => canvas.set_ink(Ink {
            r: *r,
            g: *g,
            b: *b,
        }),
        Deed::Drawpoint(x) => canvas.add(Shape::Dot(*point(spots, *x)))?,
        Deed::Drawsegment(x, y) => {
            canvas.add(Shape::Segment(*point(spots, *x), *point(spots, *y)))?;
        }
        Deed::Drawdashsegment(x, y) => {
            canvas.add(Shape::Dashed(*point(spots, *x), *point(spots, *y)))?;
        }
        Deed::Drawline(l) => {
            let ends = drawn_line(a, &line_of(line(spots, *l)));
            add_ends(ends, canvas)?;
        }
        Deed::Drawcircle(k) => {
            let circle = circle(spots, *k);
            canvas.add(Shape::Whole(circle.centre, radius(circle)))?;
        }
        Deed::Cmark(x) => canvas.add(Shape::Ring(*point(spots, *x)))?,
        Deed::CmarkAt(side, x) => {
            canvas.add(Shape::Ring(*point(spots, *x)))?;
            canvas.add(Shape::Label(*point(spots, *x), *side, *x))?;
        }
        Deed::Mark(side, x) => canvas.add(Shape::Label(*point(spots, *x), *side, *x))?,
        _ => {}
    }
    Ok(())
}

/// The picture of a program over its spots, in the area of its last size; its names are those of the program's points.
#[tactic(auto, unfolding(crate::specs::Drawing::picture_of))]
pub fn draw(alloc: Global, program: &Program, spots: &Spots) -> Result<Picture, AllocError>
    requires sound { IsSound program.now }
    requires placed { spots_of program.now.acts ≡ Ok (positions_of spots.now) }
    ensures value { IfOk result (λ picture.
        picture ≡ picture_of program.now.acts (positions_of spots.now)) }
    ensures drawable { IfOk result (λ picture. IsDrawable (length program.now.points) picture) }
{
    let a = area_of(program);
    let canvas = sketch(alloc, program, spots, &a)?;
    Ok(Picture {
        w: a.w.value() as i64,
        h: a.h.value() as i64,
        shapes: canvas.into_shapes(),
    })
}

// All that the acts of a program draw.
fn sketch(alloc: Global, program: &Program, spots: &Spots, a: &Area) -> Result<Canvas, AllocError>
    requires sound { IsSound program.now }
    requires placed { spots_of program.now.acts ≡ Ok (positions_of spots.now) }
    requires area { IsArea a.now }
    ensures { IfOk result (λ canvas. canvas ≡ (
      length program.now.points,
      drawn_from a.now (positions_of spots.now) program.now.acts blank,
    )) }
{
    let acts = program.acts.as_slice();
    let mut canvas = Canvas::new(alloc, program.points.as_slice().len());
    for act in acts {
        draw_deed(&act.deed, spots, a, &mut canvas)?;
    }
    Ok(canvas)
}

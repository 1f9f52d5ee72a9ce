// Writing a picture.
ghost use Rattle.std.specs.Prelude.{◌≡◌, ◌<◌, ◌≤◌, ◌*◌, List, ℕ, All, length, pos, ◌≤ℤ◌, ◌*ℤ◌};
ghost use Rattle.desk_io.specs.Causes.{HasCause};
ghost use Rattle.desk_io.specs.Bytes.{Writes};
ghost use Rattle.circle_cut.specs.Sizes.{IsNear};
ghost use Rattle.picture.specs.Shapes.{IsNearby, IsDrawable, IsNamed, IsWritten};
ghost use Rattle.latex_out.specs.Latex.{dash_text, dashed_text, label_text, shape_text, shapes_text, latex_text};

use crate::dash::{MOST_PARTS, division, gaps_in};
use crate::line::{write_circle, write_head, write_line, write_mark};
use crate::name::write_name;
use crate::side::{corner_of, name_place};
use circle_cut::MOST_NORMAL;
use desk_io::{Failed, Pen, Sink};
use fixed_point::Spot;
use gcl_reader::{Name, Side};
use picture::{Ink, Measure, Picture, Shape};

#[tactic(auto, unfolding(crate::specs::Latex::dash_text))]
fn write_dash<S: Sink>(
    ink: Ink,
    ends: (&Spot, &Spot),
    parts: u32,
    i: u32,
    pen: &mut Pen,
    sink: &mut S,
) -> Result<(), Failed>
    requires near { IsNear ends.0.now × IsNear ends.1.now }
    requires parts { parts ≤ MOST_PARTS }
    requires within { 2 * i < parts }
    ensures bytes { Writes (S.written sink.old) (S.written sink.new) pen.old pen.new result
        (dash_text ink ends.entry.0.now ends.entry.1.now parts i) }
    ensures cause { HasCause (S.faults sink.old) (S.faults sink.new) result }
{
    let (a, b) = ends;
    write_line(
        ink,
        division(2 * i, parts, a, b),
        division(2 * i + 1, parts, a, b),
        pen,
        sink,
    )
}

#[tactic(auto, unfolding(crate::specs::Latex::dashed_text))]
fn write_dashed<S: Sink>(
    ink: Ink,
    a: &Spot,
    b: &Spot,
    pen: &mut Pen,
    sink: &mut S,
) -> Result<(), Failed>
    requires near { IsNear a.now × IsNear b.now }
    ensures bytes { Writes (S.written sink.old) (S.written sink.new) pen.old pen.new result
        (dashed_text ink a.now b.now) }
    ensures cause { HasCause (S.faults sink.old) (S.faults sink.new) result }
{
    let gaps = gaps_in(a, b);
    let dashes = gaps + 1;
    for i in 0..dashes {
        write_dash(ink, (a, b), dashes + gaps, i, pen, sink)?;
    }
    Ok(())
}

fn diameter(radius: i64) -> Measure
    requires from { pos 0 ≤ℤ radius }
    requires to { radius ≤ℤ pos MOST_NORMAL }
    ensures { result ≡ record { ticks = pos 2 *ℤ radius } }
{
    Measure { ticks: 2 * radius }
}

#[tactic(auto, unfolding(crate::specs::Latex::label_text))]
fn write_label<S: Sink>(
    names: &[Name],
    ink: Ink,
    label: (Spot, Side, u32),
    pen: &mut Pen,
    sink: &mut S,
) -> Result<(), Failed>
    requires label { IsNearby (Shape.Label label.0 label.1 label.2) }
    requires named { label.2 < length names.now }
    ensures bytes { Writes (S.written sink.old) (S.written sink.new) pen.old pen.new result
        (label_text names.now ink label.0 label.1 label.2) }
    ensures cause { HasCause (S.faults sink.old) (S.faults sink.new) result }
{
    let (spot, side, point) = label;
    let name = names[point as usize].bytes();
    write_name(
        ink,
        name_place(&spot, side),
        corner_of(side),
        name,
        pen,
        sink,
    )
}

fn write_shape<S: Sink>(
    names: &[Name],
    ink: Ink,
    shape: Shape,
    pen: &mut Pen,
    sink: &mut S,
) -> Result<(), Failed>
    requires shape { IsNearby shape }
    requires named { IsNamed (length names.now) shape }
    ensures bytes { Writes (S.written sink.old) (S.written sink.new) pen.old pen.new result
        (shape_text names.now ink shape) }
    ensures cause { HasCause (S.faults sink.old) (S.faults sink.new) result }
{
    match shape {
        Shape::Segment(a, b) => write_line(ink, a, b, pen, sink),
        Shape::Dashed(a, b) => write_dashed(ink, &a, &b, pen, sink),
        Shape::Whole(a, radius) => write_circle(ink, a, diameter(radius), pen, sink),
        Shape::Dot(a) => write_mark(ink, a, b"*{0.8}", pen, sink),
        Shape::Ring(a) => write_mark(ink, a, b"{1.2}", pen, sink),
        Shape::Label(a, side, point) => write_label(names, ink, (a, side, point), pen, sink),
    }
}

fn write_shapes<S: Sink>(
    names: &[Name],
    shapes: &[(Ink, Shape)],
    pen: &mut Pen,
    sink: &mut S,
) -> Result<(), Failed>
    requires shapes { All (IsWritten (length names.now)) shapes.now }
    ensures bytes { Writes (S.written sink.old) (S.written sink.new) pen.old pen.new result
        (shapes_text names.now shapes.now) }
    ensures cause { HasCause (S.faults sink.old) (S.faults sink.new) result }
{
    for (ink, shape) in shapes {
        write_shape(names, *ink, *shape, pen, sink)?;
    }
    Ok(())
}

/// Writes a picture as a picture environment of LaTeX: its head, the lines of each shape, and its end. The names are those of the
/// points, by their numbers. It takes no memory.
#[tactic(auto, unfolding(crate::specs::Latex::latex_text))]
pub fn write_latex<S: Sink>(
    picture: &Picture,
    names: &[Name],
    pen: &mut Pen,
    sink: &mut S,
) -> Result<(), Failed>
    requires { IsDrawable (length names.now) picture.now }
    ensures bytes { Writes (S.written sink.old) (S.written sink.new) pen.old pen.new result
        (latex_text picture.now names.now) }
    ensures cause { HasCause (S.faults sink.old) (S.faults sink.new) result }
{
    let w = Measure { ticks: picture.w };
    let h = Measure { ticks: picture.h };
    write_head(w, h, pen, sink)?;
    write_shapes(names, picture.shapes.as_slice(), pen, sink)?;
    pen.push(sink, b"\\end{picture}\n")
}

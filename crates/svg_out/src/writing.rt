// Writing a picture.
ghost use Rattle.std.specs.Prelude.{◌≡◌, ◌<◌, List, ℕ, All, length};
ghost use Rattle.desk_io.specs.Causes.{HasCause};
ghost use Rattle.desk_io.specs.Bytes.{Writes};
ghost use Rattle.picture.specs.Shapes.{IsExtent, IsNearby, IsDrawable, IsNamed, IsWritten};
ghost use Rattle.svg_out.specs.Svg.{label_text, shape_text, shapes_text, svg_text};

use crate::line::{write_circle, write_head, write_mark, write_name, write_straight};
use crate::side::{anchor_of, name_place};
use desk_io::{Failed, Pen, Sink};
use fixed_point::Spot;
use gcl_reader::{Name, Side};
use picture::{Ink, Measure, Picture, Shape};

#[tactic(auto, unfolding(crate::specs::Svg::label_text))]
fn write_label<S: Sink>(
    h: Measure,
    names: &[Name],
    ink: Ink,
    label: (Spot, Side, u32),
    pen: &mut Pen,
    sink: &mut S,
) -> Result<(), Failed>
    requires height { IsExtent h.ticks }
    requires label { IsNearby (Shape.Label label.0 label.1 label.2) }
    requires named { label.2 < length names.now }
    ensures bytes { Writes (S.written sink.old) (S.written sink.new) pen.old pen.new result
        (label_text h names.now ink label.0 label.1 label.2) }
    ensures cause { HasCause (S.faults sink.old) (S.faults sink.new) result }
{
    let (spot, side, point) = label;
    let name = names[point as usize].bytes();
    write_name(
        h,
        ink,
        name_place(&spot, side),
        anchor_of(side),
        name,
        pen,
        sink,
    )
}

fn write_shape<S: Sink>(
    h: Measure,
    names: &[Name],
    ink: Ink,
    shape: Shape,
    pen: &mut Pen,
    sink: &mut S,
) -> Result<(), Failed>
    requires height { IsExtent h.ticks }
    requires shape { IsNearby shape }
    requires named { IsNamed (length names.now) shape }
    ensures bytes { Writes (S.written sink.old) (S.written sink.new) pen.old pen.new result
        (shape_text h names.now ink shape) }
    ensures cause { HasCause (S.faults sink.old) (S.faults sink.new) result }
{
    match shape {
        Shape::Segment(a, b) => write_straight(h, ink, (a, b), b"/>\n", pen, sink),
        Shape::Dashed(a, b) => {
            write_straight(h, ink, (a, b), b" stroke-dasharray=\"1 1\"/>\n", pen, sink)
        }
        Shape::Whole(a, radius) => write_circle(h, ink, a, Measure { ticks: radius }, pen, sink),
        Shape::Dot(a) => write_mark(h, ink, a, b"0.4\" fill", b")\"/>\n", pen, sink),
        Shape::Ring(a) => write_mark(
            h,
            ink,
            a,
            b"0.6\" fill=\"white\" stroke",
            b")\" stroke-width=\"0.2\"/>\n",
            pen,
            sink,
        ),
        Shape::Label(a, side, point) => write_label(h, names, ink, (a, side, point), pen, sink),
    }
}

fn write_shapes<S: Sink>(
    h: Measure,
    names: &[Name],
    shapes: &[(Ink, Shape)],
    pen: &mut Pen,
    sink: &mut S,
) -> Result<(), Failed>
    requires height { IsExtent h.ticks }
    requires shapes { All (IsWritten (length names.now)) shapes.now }
    ensures bytes { Writes (S.written sink.old) (S.written sink.new) pen.old pen.new result
        (shapes_text h names.now shapes.now) }
    ensures cause { HasCause (S.faults sink.old) (S.faults sink.new) result }
{
    for (ink, shape) in shapes {
        write_shape(h, names, *ink, *shape, pen, sink)?;
    }
    Ok(())
}

/// Writes a picture as an SVG document: a line for its head, for each shape and for its end. The names are those of the
/// points, by their numbers. It takes no memory.
#[tactic(auto, unfolding(crate::specs::Svg::svg_text))]
pub fn write_svg<S: Sink>(
    picture: &Picture,
    names: &[Name],
    pen: &mut Pen,
    sink: &mut S,
) -> Result<(), Failed>
    requires { IsDrawable (length names.now) picture.now }
    ensures bytes { Writes (S.written sink.old) (S.written sink.new) pen.old pen.new result
        (svg_text picture.now names.now) }
    ensures cause { HasCause (S.faults sink.old) (S.faults sink.new) result }
{
    let w = Measure { ticks: picture.w };
    let h = Measure { ticks: picture.h };
    write_head(w, h, pen, sink)?;
    write_shapes(h, names, picture.shapes.as_slice(), pen, sink)?;
    pen.push(sink, b"</svg>\n")
}

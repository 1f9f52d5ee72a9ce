// The lines of a drawing, one for each kind of shape.
ghost use Rattle.std.specs.Prelude.{◌≡◌, ◌≤◌, ◌*◌, List, ℕ, unsigned_abs};
ghost use Rattle.desk_io.specs.Causes.{HasCause};
ghost use Rattle.desk_io.specs.Bytes.{Writes};
ghost use Rattle.circle_cut.specs.Sizes.{IsNear};
ghost use Rattle.picture.specs.Shapes.{IsExtent};
ghost use Rattle.svg_out.specs.Svg.{head_text, straight_text, circle_text, mark_text, name_text};

use desk_io::{Failed, Pen, Sink};
use fixed_point::{MOST_TICKS, Spot};
use picture::{Ink, Measure, Piece, write_pieces};

/// The line that opens a drawing of a width and a height.
#[tactic(auto, unfolding(crate::specs::Svg::head_text))]
pub fn write_head<S: Sink>(
    w: Measure,
    h: Measure,
    pen: &mut Pen,
    sink: &mut S,
) -> Result<(), Failed>
    ensures bytes { Writes (S.written sink.old) (S.written sink.new) pen.old pen.new result
        (head_text w h) }
    ensures cause { HasCause (S.faults sink.old) (S.faults sink.new) result }
{
    let pieces = [
        Piece::Text(b"<svg xmlns=\"http://www.w3.org/2000/svg\" width=\""),
        Piece::Length(w),
        Piece::Text(b"mm\" height=\""),
        Piece::Length(h),
        Piece::Text(b"mm\" viewBox=\"0 0 "),
        Piece::Length(w),
        Piece::Text(b" "),
        Piece::Length(h),
        Piece::Text(b"\">\n"),
    ];
    write_pieces(&pieces, pen, sink)
}

/// A straight line, by its ends; `end` is what the line ends with, and says whether it is dashed.
#[tactic(auto, unfolding(crate::specs::Svg::straight_text))]
pub fn write_straight<'a, S: Sink>(
    h: Measure,
    ink: Ink,
    ends: (Spot, Spot),
    end: &'a [u8],
    pen: &mut Pen,
    sink: &mut S,
) -> Result<(), Failed>
    requires height { IsExtent h.ticks }
    requires spots { IsNear ends.0 × IsNear ends.1 }
    ensures bytes { Writes (S.written sink.old) (S.written sink.new) pen.old pen.new result
        (straight_text h ink ends.0 ends.1 end.now) }
    ensures cause { HasCause (S.faults sink.old) (S.faults sink.new) result }
{
    let (a, b) = ends;
    let pieces = [
        Piece::Text(b"<line x1=\""),
        Piece::Across(a),
        Piece::Text(b"\" y1=\""),
        Piece::Down(h, a),
        Piece::Text(b"\" x2=\""),
        Piece::Across(b),
        Piece::Text(b"\" y2=\""),
        Piece::Down(h, b),
        Piece::Text(b"\" stroke=\"rgb("),
        Piece::Red(ink),
        Piece::Text(b","),
        Piece::Green(ink),
        Piece::Text(b","),
        Piece::Blue(ink),
        Piece::Text(b")\" stroke-width=\"0.2\""),
        Piece::Text(end),
    ];
    write_pieces(&pieces, pen, sink)
}

/// A circle.
#[tactic(auto, unfolding(crate::specs::Svg::circle_text))]
pub fn write_circle<S: Sink>(
    h: Measure,
    ink: Ink,
    a: Spot,
    r: Measure,
    pen: &mut Pen,
    sink: &mut S,
) -> Result<(), Failed>
    requires height { IsExtent h.ticks }
    requires spot { IsNear a }
    ensures bytes { Writes (S.written sink.old) (S.written sink.new) pen.old pen.new result
        (circle_text h ink a r) }
    ensures cause { HasCause (S.faults sink.old) (S.faults sink.new) result }
{
    let pieces = [
        Piece::Text(b"<circle cx=\""),
        Piece::Across(a),
        Piece::Text(b"\" cy=\""),
        Piece::Down(h, a),
        Piece::Text(b"\" r=\""),
        Piece::Length(r),
        Piece::Text(b"\" fill=\"none\" stroke=\"rgb("),
        Piece::Red(ink),
        Piece::Text(b","),
        Piece::Green(ink),
        Piece::Text(b","),
        Piece::Blue(ink),
        Piece::Text(b")\" stroke-width=\"0.2\"/>\n"),
    ];
    write_pieces(&pieces, pen, sink)
}

/// The mark of a point, a small circle: `look` is its radius and what is filled with a colour or drawn in it, and `end` what stands
/// behind the colour.
#[tactic(auto, unfolding(crate::specs::Svg::mark_text))]
pub fn write_mark<'a, S: Sink>(
    h: Measure,
    ink: Ink,
    a: Spot,
    look: &'a [u8],
    end: &'a [u8],
    pen: &mut Pen,
    sink: &mut S,
) -> Result<(), Failed>
    requires height { IsExtent h.ticks }
    requires spot { IsNear a }
    ensures bytes { Writes (S.written sink.old) (S.written sink.new) pen.old pen.new result
        (mark_text h ink a look.now end.now) }
    ensures cause { HasCause (S.faults sink.old) (S.faults sink.new) result }
{
    let pieces = [
        Piece::Text(b"<circle cx=\""),
        Piece::Across(a),
        Piece::Text(b"\" cy=\""),
        Piece::Down(h, a),
        Piece::Text(b"\" r=\""),
        Piece::Text(look),
        Piece::Text(b"=\"rgb("),
        Piece::Red(ink),
        Piece::Text(b","),
        Piece::Green(ink),
        Piece::Text(b","),
        Piece::Blue(ink),
        Piece::Text(end),
    ];
    write_pieces(&pieces, pen, sink)
}

/// A name at a place, by the end that stands there.
#[tactic(auto, unfolding(crate::specs::Svg::name_text))]
pub fn write_name<'a, S: Sink>(
    h: Measure,
    ink: Ink,
    place: Spot,
    anchor: &'a [u8],
    name: &'a [u8],
    pen: &mut Pen,
    sink: &mut S,
) -> Result<(), Failed>
    requires height { IsExtent h.ticks }
    requires place { unsigned_abs place.y ≤ 2 * MOST_TICKS }
    ensures bytes { Writes (S.written sink.old) (S.written sink.new) pen.old pen.new result
        (name_text h ink place anchor.now name.now) }
    ensures cause { HasCause (S.faults sink.old) (S.faults sink.new) result }
{
    let pieces = [
        Piece::Text(b"<text x=\""),
        Piece::Across(place),
        Piece::Text(b"\" y=\""),
        Piece::Down(h, place),
        Piece::Text(b"\" font-size=\"4\" text-anchor=\""),
        Piece::Text(anchor),
        Piece::Text(b"\" fill=\"rgb("),
        Piece::Red(ink),
        Piece::Text(b","),
        Piece::Green(ink),
        Piece::Text(b","),
        Piece::Blue(ink),
        Piece::Text(b")\">"),
        Piece::Text(name),
        Piece::Text(b"</text>\n"),
    ];
    write_pieces(&pieces, pen, sink)
}

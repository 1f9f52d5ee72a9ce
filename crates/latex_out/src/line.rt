// The lines of a picture environment.
ghost use Rattle.std.specs.Prelude.{◌≡◌, List, ℕ};
ghost use Rattle.desk_io.specs.Causes.{HasCause};
ghost use Rattle.desk_io.specs.Bytes.{Writes};
ghost use Rattle.latex_out.specs.Latex.{head_text, line_text, circle_text, mark_text, boxed_text};

use desk_io::{Failed, Pen, Sink};
use fixed_point::Spot;
use picture::{Ink, Measure, Piece, write_pieces};

/// The lines that open a picture of a width and a height.
#[tactic(auto, unfolding(crate::specs::Latex::head_text))]
pub fn write_head<S: Sink>(
    w: Measure,
    h: Measure,
    pen: &mut Pen,
    sink: &mut S,
) -> Result<(), Failed>
    ensures bytes { Writes (S.written sink.old) (S.written sink.new) pen.old pen.new result
        (head_text w h) }
    ensures cause { HasCause (S.faults sink.old) (S.faults sink.new) result }
{
    let pieces = [
        Piece::Text(b"\\setlength{\\unitlength}{1mm}\n\\begin{picture}("),
        Piece::Length(w),
        Piece::Text(b","),
        Piece::Length(h),
        Piece::Text(b")\n"),
    ];
    write_pieces(&pieces, pen, sink)
}

/// A straight line.
#[tactic(auto, unfolding(crate::specs::Latex::line_text))]
pub fn write_line<S: Sink>(
    ink: Ink,
    a: Spot,
    b: Spot,
    pen: &mut Pen,
    sink: &mut S,
) -> Result<(), Failed>
    ensures bytes { Writes (S.written sink.old) (S.written sink.new) pen.old pen.new result
        (line_text ink a b) }
    ensures cause { HasCause (S.faults sink.old) (S.faults sink.new) result }
{
    let pieces = [
        Piece::Text(b"\\put(0,0){\\color[RGB]{"),
        Piece::Red(ink),
        Piece::Text(b","),
        Piece::Green(ink),
        Piece::Text(b","),
        Piece::Blue(ink),
        Piece::Text(b"}\\Line("),
        Piece::Across(a),
        Piece::Text(b","),
        Piece::Up(a),
        Piece::Text(b")("),
        Piece::Across(b),
        Piece::Text(b","),
        Piece::Up(b),
        Piece::Text(b")}\n"),
    ];
    write_pieces(&pieces, pen, sink)
}

/// A circle, by its diameter.
#[tactic(auto, unfolding(crate::specs::Latex::circle_text))]
pub fn write_circle<S: Sink>(
    ink: Ink,
    a: Spot,
    d: Measure,
    pen: &mut Pen,
    sink: &mut S,
) -> Result<(), Failed>
    ensures bytes { Writes (S.written sink.old) (S.written sink.new) pen.old pen.new result
        (circle_text ink a d) }
    ensures cause { HasCause (S.faults sink.old) (S.faults sink.new) result }
{
    let pieces = [
        Piece::Text(b"\\put("),
        Piece::Across(a),
        Piece::Text(b","),
        Piece::Up(a),
        Piece::Text(b"){\\color[RGB]{"),
        Piece::Red(ink),
        Piece::Text(b","),
        Piece::Green(ink),
        Piece::Text(b","),
        Piece::Blue(ink),
        Piece::Text(b"}\\circle{"),
        Piece::Length(d),
        Piece::Text(b"}}\n"),
    ];
    write_pieces(&pieces, pen, sink)
}

/// The mark of a point, a circle or a filled one of a size.
#[tactic(auto, unfolding(crate::specs::Latex::mark_text))]
pub fn write_mark<'a, S: Sink>(
    ink: Ink,
    a: Spot,
    mark: &'a [u8],
    pen: &mut Pen,
    sink: &mut S,
) -> Result<(), Failed>
    ensures bytes { Writes (S.written sink.old) (S.written sink.new) pen.old pen.new result
        (mark_text ink a mark.now) }
    ensures cause { HasCause (S.faults sink.old) (S.faults sink.new) result }
{
    let pieces = [
        Piece::Text(b"\\put("),
        Piece::Across(a),
        Piece::Text(b","),
        Piece::Up(a),
        Piece::Text(b"){\\color[RGB]{"),
        Piece::Red(ink),
        Piece::Text(b","),
        Piece::Green(ink),
        Piece::Text(b","),
        Piece::Blue(ink),
        Piece::Text(b"}\\circle"),
        Piece::Text(mark),
        Piece::Text(b"}\n"),
    ];
    write_pieces(&pieces, pen, sink)
}

/// A name at a place, by the corner that stands there, and what stands behind the name.
#[tactic(auto, unfolding(crate::specs::Latex::boxed_text))]
pub fn write_boxed<'a, S: Sink>(
    ink: Ink,
    a: Spot,
    corner: &'a [u8],
    name: (&'a [u8], &'a [u8]),
    pen: &mut Pen,
    sink: &mut S,
) -> Result<(), Failed>
    ensures bytes { Writes (S.written sink.old) (S.written sink.new) pen.old pen.new result
        (boxed_text ink a corner.now name.entry.0.now name.entry.1.now) }
    ensures cause { HasCause (S.faults sink.old) (S.faults sink.new) result }
{
    let (letters, behind) = name;
    let pieces = [
        Piece::Text(b"\\put("),
        Piece::Across(a),
        Piece::Text(b","),
        Piece::Up(a),
        Piece::Text(b"){\\color[RGB]{"),
        Piece::Red(ink),
        Piece::Text(b","),
        Piece::Green(ink),
        Piece::Text(b","),
        Piece::Blue(ink),
        Piece::Text(b"}\\makebox(0,0)"),
        Piece::Text(corner),
        Piece::Text(b"{$"),
        Piece::Text(letters),
        Piece::Text(behind),
    ];
    write_pieces(&pieces, pen, sink)
}

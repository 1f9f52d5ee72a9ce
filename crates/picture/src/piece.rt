// Lines of text, put together from pieces.
ghost use Rattle.std.specs.Prelude.{◌≡◌, List, ℕ, decimal, All};
ghost use Rattle.desk_io.specs.Causes.{HasCause};
ghost use Rattle.desk_io.specs.Bytes.{Writes};
ghost use Rattle.picture.specs.Pieces.{IsWritable, piece_text, pieces_text};

use crate::shape::Ink;
use desk_io::{Failed, Pen, Sink};
use fixed_point::{Spot, write_ticks};
use itoa::Buffer;

/// A length in ticks.
#[derive(Clone, Copy, Debug, PartialEq, Eq)]
pub struct Measure {
    pub ticks: i64,
}

/// A piece of a line.
#[derive(Clone, Copy)]
pub enum Piece<'a> {
    /// Bytes as they stand.
    Text(&'a [u8]),
    /// A length in millimetres.
    Length(Measure),
    /// How far a spot is from the left side.
    Across(Spot),
    /// How high a spot is.
    Up(Spot),
    /// How far a spot is below the upper side of an area of a height.
    Down(Measure, Spot),
    /// The parts of a colour.
    Red(Ink),
    Green(Ink),
    Blue(Ink),
}

/// Writes pieces one behind the other.
pub fn write_pieces<S: Sink>(
    pieces: &[Piece<'_>],
    pen: &mut Pen,
    sink: &mut S,
) -> Result<(), Failed>
    requires { All IsWritable pieces.now }
    ensures bytes { Writes (S.written sink.old) (S.written sink.new) pen.old pen.new result
        (pieces_text pieces.now) }
    ensures cause { HasCause (S.faults sink.old) (S.faults sink.new) result }
{
    for piece in pieces {
        write_piece(*piece, pen, sink)?;
    }
    Ok(())
}

fn write_piece<S: Sink>(piece: Piece<'_>, pen: &mut Pen, sink: &mut S) -> Result<(), Failed>
    requires { IsWritable piece }
    ensures bytes { Writes (S.written sink.old) (S.written sink.new) pen.old pen.new result
        (piece_text piece.entry) }
    ensures cause { HasCause (S.faults sink.old) (S.faults sink.new) result }
{
    match piece {
        Piece::Text(bytes) => pen.push(sink, bytes),
        Piece::Length(length) => write_ticks(length.ticks, pen, sink),
        Piece::Across(a) => write_ticks(a.x, pen, sink),
        Piece::Up(a) => write_ticks(a.y, pen, sink),
        Piece::Down(height, a) => write_ticks(height.ticks - a.y, pen, sink),
        Piece::Red(ink) => write_decimal(ink.r, pen, sink),
        Piece::Green(ink) => write_decimal(ink.g, pen, sink),
        Piece::Blue(ink) => write_decimal(ink.b, pen, sink),
    }
}

fn write_decimal<S: Sink>(level: u8, pen: &mut Pen, sink: &mut S) -> Result<(), Failed>
    ensures bytes { Writes (S.written sink.old) (S.written sink.new) pen.old pen.new result
        (decimal level) }
    ensures cause { HasCause (S.faults sink.old) (S.faults sink.new) result }
{
    let mut buffer = Buffer::new();
    pen.push(sink, buffer.format(level).as_bytes())
}

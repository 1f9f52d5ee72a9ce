// Names, of which a part may stand lower.
ghost use Rattle.std.specs.Prelude.{◌≡◌, ◌<◌, ◌==◌, List, ℕ, IfSome, length, position};
ghost use Rattle.std.specs.List.{flat_map};
ghost use Rattle.desk_io.specs.Causes.{HasCause};
ghost use Rattle.desk_io.specs.Bytes.{Writes};
ghost use Rattle.latex_out.specs.Latex.{lower_text, lowered_text, name_text};
ghost use Rattle.desk_io.specs.Characters.{low_line};

use crate::line::write_boxed;
use desk_io::{Failed, Pen, Sink};
use fixed_point::Spot;
use picture::Ink;

// The place of the first low line of a name.
fn first_low(name: &[u8]) -> Option<usize>
    ensures within { IfSome result (λ i. i < length name.now) }
    ensures value { result ≡ position (λ b. b == low_line) name.now }
{
    name.iter().position(|b| *b == b'_')
}

fn write_lower_byte<S: Sink>(b: u8, pen: &mut Pen, sink: &mut S) -> Result<(), Failed>
    ensures bytes { Writes (S.written sink.old) (S.written sink.new) pen.old pen.new result
        (lower_text b) }
    ensures cause { HasCause (S.faults sink.old) (S.faults sink.new) result }
{
    if b == b'_' {
        return pen.push(sink, b"\\_");
    }
    pen.push(sink, &[b])
}

fn write_lower<S: Sink>(bytes: &[u8], pen: &mut Pen, sink: &mut S) -> Result<(), Failed>
    ensures bytes { Writes (S.written sink.old) (S.written sink.new) pen.old pen.new result
        (flat_map lower_text bytes.now) }
    ensures cause { HasCause (S.faults sink.old) (S.faults sink.new) result }
{
    for b in bytes {
        write_lower_byte(*b, pen, sink)?;
    }
    Ok(())
}

fn write_lowered<'a, S: Sink>(
    ink: Ink,
    a: Spot,
    corner: &'a [u8],
    name: (&'a [u8], &'a [u8]),
    pen: &mut Pen,
    sink: &mut S,
) -> Result<(), Failed>
    ensures bytes { Writes (S.written sink.old) (S.written sink.new) pen.old pen.new result
        (lowered_text ink a corner.now name.entry.0.now name.entry.1.now) }
    ensures cause { HasCause (S.faults sink.old) (S.faults sink.new) result }
{
    let (before, behind) = name;
    write_boxed(ink, a, corner, (before, b"_{"), pen, sink)?;
    write_lower(behind, pen, sink)?;
    pen.push(sink, b"}$}}\n")
}

/// A name at a place, by the corner that stands there. What is behind its first `_` stands lower.
#[tactic(auto, unfolding(crate::specs::Latex::name_text, crate::specs::Latex::name_with))]
pub fn write_name<'a, S: Sink>(
    ink: Ink,
    a: Spot,
    corner: &'a [u8],
    name: &'a [u8],
    pen: &mut Pen,
    sink: &mut S,
) -> Result<(), Failed>
    ensures bytes { Writes (S.written sink.old) (S.written sink.new) pen.old pen.new result
        (name_text ink a corner.now name.now) }
    ensures cause { HasCause (S.faults sink.old) (S.faults sink.new) result }
{
    match first_low(name) {
        None => write_boxed(ink, a, corner, (name, b"$}}\n"), pen, sink),
        Some(i) => write_lowered(ink, a, corner, (&name[..i], &name[i + 1..]), pen, sink),
    }
}

ghost use Rattle.std.specs.Prelude.{IsTrue, length};
ghost use Rattle.desk_io.specs.Causes.{HasCause};
ghost use Rattle.desk_io.specs.Bytes.{Writes};
ghost use Rattle.poly_model.specs.Polynomial.{is_over};
ghost use Rattle.poly_text.specs.Text.{variable_text, poly_text};

use crate::pieces::letter;
use crate::room::{ROOM, entry};
use desk_io::{Failed, Pen, Sink};
use itoa::Buffer;
use poly_model::{OwnedPoly, VarName, Vars};

/// Writes the text of a variable: the letter of its kind and its number.
pub fn write_variable<S: Sink>(name: VarName, pen: &mut Pen, sink: &mut S) -> Result<(), Failed>
    ensures bytes { Writes (S.written sink.old) (S.written sink.new) pen.old pen.new result
        (variable_text name) }
    ensures cause { HasCause (S.faults sink.old) (S.faults sink.new) result }
{
    let mut buffer = Buffer::new();
    pen.push(sink, &[letter(name)])?;
    pen.push(sink, buffer.format(name.number()).as_bytes())
}

/// Prints the text of a polynomial over these variables.
pub fn print_poly<S: Sink>(
    p: &OwnedPoly,
    vars: &Vars,
    pen: &mut Pen,
    sink: &mut S,
) -> Result<(), Failed>
    requires { IsTrue (is_over (length vars.now) p.now) }
    ensures bytes { Writes (S.written sink.old) (S.written sink.new) pen.old pen.new result
        (poly_text vars.now p.now) }
    ensures cause { HasCause (S.faults sink.old) (S.faults sink.new) result }
{
    let terms = p.terms();
    if terms.is_empty() {
        return pen.push(sink, b"0");
    }
    let mut room = [0; ROOM];
    for (i, term) in terms.iter().enumerate() {
        pen.push(sink, entry(i == 0, term, vars, &mut room))?;
    }
    Ok(())
}

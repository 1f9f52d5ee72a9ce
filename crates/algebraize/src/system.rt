// Writing the problems of the proves.
ghost use Rattle.std.specs.Prelude.{◌≡◌, ◌≤◌, ◌<◌, ◌+◌, ◌^◌, ◌++◌, ◌∷◌, [], List, ℕ, IsTrue, length, map, codes, decimal};
ghost use Rattle.std.specs.List.{flat_map, list_all};
ghost use Rattle.desk_io.specs.Bytes.{Writes};
ghost use Rattle.desk_io.specs.Causes.{HasCause};
ghost use Rattle.poly_model.specs.Polynomial.{is_over};
ghost use Rattle.algebraize.specs.Formed.{equations, is_own};
ghost use Rattle.algebraize.specs.System.{line_end, name_text, names_text, polynomial_line, polynomial_lines, problem_text, problems_text, system_text};

use desk_io::{Failed, Pen, Sink};
use itoa::Buffer;
use poly_model::{OwnedPoly, VarName, Vars};
use poly_text::{print_poly, write_variable};
use proof_steps::Problem;

fn write_name<S: Sink>(name: VarName, pen: &mut Pen, sink: &mut S) -> Result<(), Failed>
    ensures bytes { Writes (S.written sink.old) (S.written sink.new) pen.old pen.new result
        (name_text name) }
    ensures cause { HasCause (S.faults sink.old) (S.faults sink.new) result }
{
    pen.push(sink, b" ")?;
    write_variable(name, pen, sink)
}

fn write_names<S: Sink>(vars: &Vars, pen: &mut Pen, sink: &mut S) -> Result<(), Failed>
    ensures bytes { Writes (S.written sink.old) (S.written sink.new) pen.old pen.new result
        (names_text vars.now) }
    ensures cause { HasCause (S.faults sink.old) (S.faults sink.new) result }
{
    for i in 0..vars.len() {
        write_name(vars.at(i), pen, sink)?;
    }
    Ok(())
}

/// Writes a line with a word and a polynomial.
fn write_polynomial<S: Sink>(
    word: &[u8],
    p: &OwnedPoly,
    vars: &Vars,
    pen: &mut Pen,
    sink: &mut S,
) -> Result<(), Failed>
    requires { IsTrue (is_over (length vars.now) p.now) }
    ensures bytes { Writes (S.written sink.old) (S.written sink.new) pen.old pen.new result
        (polynomial_line word.now vars.now p.now) }
    ensures cause { HasCause (S.faults sink.old) (S.faults sink.new) result }
{
    pen.push(sink, word)?;
    print_poly(p, vars, pen, sink)?;
    pen.push(sink, b"\n")
}

fn write_polynomials<S: Sink>(
    word: &[u8],
    polynomials: &[OwnedPoly],
    vars: &Vars,
    pen: &mut Pen,
    sink: &mut S,
) -> Result<(), Failed>
    requires { IsTrue (list_all (is_over (length vars.now)) polynomials.now) }
    ensures bytes { Writes (S.written sink.old) (S.written sink.new) pen.old pen.new result
        (polynomial_lines word.now vars.now polynomials.now) }
    ensures cause { HasCause (S.faults sink.old) (S.faults sink.new) result }
{
    let mut rest = polynomials;
    while let Some((p, tail)) = rest.split_first() {
        write_polynomial(word, p, vars, pen, sink)?;
        rest = tail;
    }
    Ok(())
}

/// Writes a problem's number and variables.
fn write_head<S: Sink>(
    number: usize,
    vars: &Vars,
    pen: &mut Pen,
    sink: &mut S,
) -> Result<(), Failed>
    ensures bytes { Writes (S.written sink.old) (S.written sink.new) pen.old pen.new result
        (codes "prove " ++ decimal number ++ codes "\nvars" ++ names_text vars.now) }
    ensures cause { HasCause (S.faults sink.old) (S.faults sink.new) result }
{
    pen.push(sink, b"prove ")?;
    let mut buffer = Buffer::new();
    pen.push(sink, buffer.format(number).as_bytes())?;
    pen.push(sink, b"\nvars")?;
    write_names(vars, pen, sink)
}

fn write_problem<S: Sink>(
    number: usize,
    problem: &Problem,
    pen: &mut Pen,
    sink: &mut S,
) -> Result<(), Failed>
    requires { IsTrue (is_own problem.now) }
    ensures bytes { Writes (S.written sink.old) (S.written sink.new) pen.old pen.new result
        (problem_text number (equations problem.now)) }
    ensures cause { HasCause (S.faults sink.old) (S.faults sink.new) result }
{
    write_head(number, &problem.vars, pen, sink)?;
    pen.push(sink, b"\n")?;
    write_polynomials(b"hyp ", problem.hyps.as_slice(), &problem.vars, pen, sink)?;
    write_polynomials(b"con ", problem.cons.as_slice(), &problem.vars, pen, sink)
}

/// Writes problems, numbered from 1: for each its number, its variables, and a line for each hypothesis and each
/// conclusion. It takes no memory.
pub fn write_system<S: Sink>(
    problems: &[Problem],
    pen: &mut Pen,
    sink: &mut S,
) -> Result<(), Failed>
    requires { IsTrue (list_all is_own problems.now) }
    ensures bytes { Writes (S.written sink.old) (S.written sink.new) pen.old pen.new result
        (system_text (map equations problems.now)) }
    ensures cause { HasCause (S.faults sink.old) (S.faults sink.new) result }
{
    let mut number = 1;
    let mut rest = problems;
    while let Some((problem, tail)) = rest.split_first() {
        write_problem(number, problem, pen, sink)?;
        number += 1;
        rest = tail;
    }
    Ok(())
}

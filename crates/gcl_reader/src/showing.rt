ghost use Rattle.std.specs.Prelude.{◌≡◌, List, ℕ, flat_map};
ghost use Rattle.desk_io.specs.Causes.{HasCause};
ghost use Rattle.desk_io.specs.Bytes.{Writes};
ghost use Rattle.gcl_reader.specs.Spelling.{statement_in};
ghost use Rattle.gcl_reader.specs.Show.{value_text, arg_text, rest_text, line_text, show_text, ShownIsRead};

use crate::file::{Arg, Command, File, What};
use crate::table::{Written, text_of};
use crate::word::{Statement, Word};
use desk_io::{Failed, Pen, Sink};

/// Writes the value of an argument.
fn write_value<S: Sink>(what: &What, pen: &mut Pen, sink: &mut S) -> Result<(), Failed>
    ensures bytes { Writes (S.written sink.old) (S.written sink.new) pen.old pen.new result
        (value_text what.now) }
    ensures cause { HasCause (S.faults sink.old) (S.faults sink.new) result }
{
    match what {
        What::Name(name) => pen.push(sink, name.bytes()),
        What::Number(number) => number.write(pen, sink),
    }
}

/// Writes an argument behind a blank.
fn write_arg<S: Sink>(arg: &Arg, pen: &mut Pen, sink: &mut S) -> Result<(), Failed>
    ensures bytes { Writes (S.written sink.old) (S.written sink.new) pen.old pen.new result
        (arg_text arg.now) }
    ensures cause { HasCause (S.faults sink.old) (S.faults sink.new) result }
{
    pen.push(sink, b" ")?;
    write_value(&arg.what, pen, sink)
}

/// Writes the arguments of a command.
fn write_args<S: Sink>(args: &[Arg], pen: &mut Pen, sink: &mut S) -> Result<(), Failed>
    ensures bytes { Writes (S.written sink.old) (S.written sink.new) pen.old pen.new result
        (flat_map arg_text args.now) }
    ensures cause { HasCause (S.faults sink.old) (S.faults sink.new) result }
{
    for arg in args {
        write_arg(arg, pen, sink)?;
    }
    Ok(())
}

/// Writes a statement over its points, in braces.
fn write_statement<S: Sink>(
    statement: &Statement,
    points: &[Arg],
    pen: &mut Pen,
    sink: &mut S,
) -> Result<(), Failed>
    ensures bytes { Writes (S.written sink.old) (S.written sink.new) pen.old pen.new result
        (rest_text (Some statement.now) points.now) }
    ensures cause { HasCause (S.faults sink.old) (S.faults sink.new) result }
{
    pen.push(sink, b" { ")?;
    pen.push(sink, statement.text())?;
    write_args(points, pen, sink)?;
    pen.push(sink, b" }")
}

/// Writes what stands behind the word of a command.
fn write_rest<S: Sink>(word: &Word, args: &[Arg], pen: &mut Pen, sink: &mut S) -> Result<(), Failed>
    ensures bytes { Writes (S.written sink.old) (S.written sink.new) pen.old pen.new result
        (rest_text (statement_in word.now) args.now) }
    ensures cause { HasCause (S.faults sink.old) (S.faults sink.new) result }
{
    match word {
        Word::Prove(statement) => write_statement(statement, args, pen, sink),
        _ => write_args(args, pen, sink),
    }
}

/// Writes a command as a line.
fn write_command<S: Sink>(command: &Command, pen: &mut Pen, sink: &mut S) -> Result<(), Failed>
    ensures bytes { Writes (S.written sink.old) (S.written sink.new) pen.old pen.new result
        (line_text command.now) }
    ensures cause { HasCause (S.faults sink.old) (S.faults sink.new) result }
{
    pen.push(sink, text_of(&command.word))?;
    write_rest(&command.word, command.args.as_slice(), pen, sink)?;
    pen.push(sink, b"\n")
}

/// Writes commands, each as a line.
fn write_commands<S: Sink>(commands: &[Command], pen: &mut Pen, sink: &mut S) -> Result<(), Failed>
    ensures bytes { Writes (S.written sink.old) (S.written sink.new) pen.old pen.new result
        (show_text commands.now) }
    ensures cause { HasCause (S.faults sink.old) (S.faults sink.new) result }
{
    for command in commands {
        write_command(command, pen, sink)?;
    }
    Ok(())
}

/// Writes the canonical spelling of a file: a command on each line, its tokens parted by single blanks, its numbers as
/// `Fix::write` spells them. Comments and the places of the tokens are not kept.
pub fn show<S: Sink>(file: &File, pen: &mut Pen, sink: &mut S) -> Result<(), Failed>
    ensures bytes { Writes (S.written sink.old) (S.written sink.new) pen.old pen.new result
        (show_text file.now.commands) }
    ensures cause { HasCause (S.faults sink.old) (S.faults sink.new) result }
{
    write_commands(file.commands.as_slice(), pen, sink)
}

/// What is shown of fitting commands is read as the same words and values, command k on line k.
pub fn shown_is_read()
    ensures { ShownIsRead }
{}

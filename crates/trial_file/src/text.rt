ghost use Rattle.std.specs.Prelude.{◌≡◌, ◌≤◌, ◌++◌, IfOk, OnOk, codes, length};
ghost use Rattle.gcl_reader.specs.declared.limits.TheConstants.{MOST_BYTES};
ghost use Rattle.trial_file.specs.Trial.{command, name_text, prove, spaced, step_text, trial_text};

use crate::choice::{Choice, Construction, Name};
use crate::draws::Draws;
use itoa::Buffer;
use std::alloc::{AllocError, Global};

const FREE_POINTS: &[u8] = b"point A0 0 0\npoint A1 60 0\npoint A2 20 50\n";

// Appends a name behind a blank.
fn push_name(text: &mut Vec<u8>, name: Name) -> Result<(), AllocError>
    ensures { OnOk result (text.new.items ≡ text.old.items ++ (codes " " ++ name_text name)) }
{
    let mut buffer = Buffer::new();
    let (letter, number) = match name {
        Name::Point(number) => (b" A", number),
        Name::Line(number) => (b" l", number),
    };
    text.extend_from_slice(letter)?;
    text.extend_from_slice(buffer.format(number).as_bytes())
}

// Appends names, each behind a blank.
fn push_names(text: &mut Vec<u8>, names: &[Name]) -> Result<(), AllocError>
    ensures { OnOk result (text.new.items ≡ text.old.items ++ spaced names.now) }
{
    let mut rest = names;
    while let Some((name, others)) = rest.split_first() {
        push_name(text, *name)?;
        rest = others;
    }
    Ok(())
}

// Appends a command of names.
fn push_command(text: &mut Vec<u8>, word: &[u8], names: &[Name]) -> Result<(), AllocError>
    ensures { OnOk result (text.new.items ≡ text.old.items ++ command word.now names.now) }
{
    text.extend_from_slice(word)?;
    push_names(text, names)?;
    text.extend_from_slice(b"\n")
}

// Appends the proof of a statement.
fn push_prove(text: &mut Vec<u8>, statement: &[u8], names: &[Name]) -> Result<(), AllocError>
    ensures { OnOk result (text.new.items ≡ text.old.items ++ prove statement.now names.now) }
{
    text.extend_from_slice(b"prove { ")?;
    text.extend_from_slice(statement)?;
    push_names(text, names)?;
    text.extend_from_slice(b" }\n")
}

// Appends the construction of point i, and the statement that it makes true.
fn push_step(text: &mut Vec<u8>, i: u64, choice: Choice) -> Result<(), AllocError>
    ensures { OnOk result (text.new.items ≡ text.old.items ++ step_text i choice) }
{
    let line = Name::Line(i);
    let made = Name::Point(i);
    let a = Name::Point(choice.a);
    let b = Name::Point(choice.b);
    let c = Name::Point(choice.c);
    match choice.construction {
        Construction::Midpoint => {
            push_command(text, b"midpoint", &[made, a, b])?;
            push_prove(text, b"collinear", &[a, b, made])
        }
        Construction::Foot => {
            push_command(text, b"line", &[line, a, b])?;
            push_command(text, b"foot", &[made, c, line])?;
            push_prove(text, b"collinear", &[a, b, made])
        }
        Construction::Translate => {
            push_command(text, b"translate", &[made, a, b, c])?;
            push_prove(text, b"parallel", &[a, b, c, made])
        }
    }
}

/// The file of a number.
pub fn trial_file(alloc: Global, number: u32) -> Result<Vec<u8>, AllocError>
    ensures text { IfOk result (λ text. text.items ≡ trial_text number) }
    ensures short { IfOk result (λ text. length text.items ≤ MOST_BYTES) }
{
    let mut text = Vec::from_slice(alloc, FREE_POINTS)?;
    let mut draws = Draws::from(number);
    for i in 3..u64::from(number % 16) + 4 {
        let choice = draws.choose(i);
        push_step(&mut text, i, choice)?;
    }
    Ok(text)
}

// The line on notes that refuses a file or rejects a log.
ghost use Rattle.std.specs.Prelude.{◌≡◌, ◌++◌, take, drop, IfOk, OnOk};
ghost use Rattle.command_line.specs.Checking.{rejected_line};
ghost use Rattle.command_line.specs.Note.{kind_text, token_text, refusal_line};

use gcl_reader::{Kind, Refusal};
use itoa::Buffer;
use std::alloc::{AllocError, Global};

// How many bytes of a token are shown.
const MOST_SHOWN: u32 = 40;

// The name of a kind of refusal.
fn kind_name(kind: Kind) -> &'static str
    ensures { result.now ≡ kind_text kind }
{
    match kind {
        Kind::NotText => "NotText",
        Kind::UnknownCommand => "UnknownCommand",
        Kind::WantsName => "WantsName",
        Kind::WantsNumber => "WantsNumber",
        Kind::BadNumber => "BadNumber",
        Kind::WantsBrace => "WantsBrace",
        Kind::EndInside => "EndInside",
        Kind::UnknownStatement => "UnknownStatement",
        Kind::TooManyCommands => "TooManyCommands",
        Kind::Undefined => "Undefined",
        Kind::Twice => "Twice",
        Kind::WrongKind => "WrongKind",
        Kind::TooManyProves => "TooManyProves",
        Kind::TooManyPoints => "TooManyPoints",
        Kind::TooManyVars => "TooManyVars",
        Kind::NoMeet => "NoMeet",
        Kind::SamePoints => "SamePoints",
        Kind::OutOfRange => "OutOfRange",
        Kind::BadFigure => "BadFigure",
    }
}

// The bytes from a place on, at most so many.
fn piece_at(bytes: &[u8], at: u32, most: u32) -> &[u8]
    ensures { result.now ≡ take most (drop at bytes.now) }
{
    let rest = &bytes[(at as usize).min(bytes.len())..];
    &rest[..(most as usize).min(rest.len())]
}

// Shows the token at fault, where there is one.
fn push_token(line: &mut Vec<u8>, bytes: &[u8], refusal: Refusal) -> Result<(), AllocError>
    ensures { OnOk result (line.new.items ≡ line.old.items ++ token_text bytes.now refusal) }
{
    if refusal.len == 0 {
        return Ok(());
    }
    line.push(b' ')?;
    line.extend_from_slice(piece_at(bytes, refusal.at, refusal.len.min(MOST_SHOWN)))?;
    Ok(())
}

/// The line that says why a file is refused: `refused: line L: KIND TOKEN`, with the first 40 bytes of the token.
///
/// It is made whole before any of it is put, so that want of memory leaves nothing half said.
pub fn note_of(alloc: Global, bytes: &[u8], refusal: Refusal) -> Result<Vec<u8>, AllocError>
    ensures { IfOk result (λ line. line.items ≡ refusal_line bytes.now refusal) }
{
    let mut number = Buffer::new();
    let mut line = Vec::from_slice(alloc, b"refused: line ")?;
    line.extend_from_slice(number.format(refusal.line).as_bytes())?;
    line.extend_from_slice(b": ")?;
    line.extend_from_slice(kind_name(refusal.kind).as_bytes())?;
    push_token(&mut line, bytes, refusal)?;
    line.push(b'\n')?;
    Ok(line)
}

/// The line that says at which line a log is at fault: `rejected: line L: WORD`.
pub fn rejection_of(alloc: Global, line: u32, word: &[u8]) -> Result<Vec<u8>, AllocError>
    ensures { IfOk result (λ note. note.items ≡ rejected_line line word.now) }
{
    let mut number = Buffer::new();
    let mut note = Vec::from_slice(alloc, b"rejected: line ")?;
    note.extend_from_slice(number.format(line).as_bytes())?;
    note.extend_from_slice(b": ")?;
    note.extend_from_slice(word)?;
    note.push(b'\n')?;
    Ok(note)
}

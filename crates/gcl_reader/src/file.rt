ghost use Rattle.std.specs.Prelude.{◌≡◌};

use crate::name::Name;
use crate::span::Span;
use crate::word::Word;
use fixed_point::{Fix, Row};

/// The value of an argument.
#[derive(Clone, Debug, PartialEq, Drop)]
pub enum What {
    Name(Name),
    Number(Fix),
}

/// An argument, with the line, the place and the length of its token in the file.
#[derive(Clone, Debug, PartialEq, Drop)]
pub struct Arg {
    pub line: u32,
    pub at: u32,
    pub len: u32,
    pub what: What,
}

impl Arg {
    ghost use Rattle.gcl_reader.specs.Span.{span_of_arg};

    /// Where its token stands.
    pub fn span(&self) -> Span
        ensures { result ≡ span_of_arg self.now }
    {
        Span {
            line: self.line,
            at: self.at,
            len: self.len,
        }
    }
}

/// A command, with the line, the place and the length of its word in the file.
///
/// The points of a statement are the arguments of its `prove`.
#[derive(Clone, Debug, PartialEq, Drop)]
pub struct Command {
    pub word: Word,
    pub line: u32,
    pub at: u32,
    pub len: u32,
    pub args: Row<Arg>,
}

impl Command {
    ghost use Rattle.gcl_reader.specs.Span.{span_of_command};

    /// Where its word stands.
    pub fn span(&self) -> Span
        ensures { result ≡ span_of_command self.now }
    {
        Span {
            line: self.line,
            at: self.at,
            len: self.len,
        }
    }
}

/// The commands of a file, in their order.
#[derive(Clone, Debug, PartialEq, Drop)]
pub struct File {
    pub commands: Row<Command>,
}

ghost use Rattle.std.specs.Prelude.{◌≡◌};
ghost use Rattle.gcl_reader.specs.Span.{refusal};

use crate::refusal::{Kind, Refusal};

/// Where a token stands in its file: its line, counted from 1, and its place and length in bytes.
#[derive(Clone, Copy, Debug, PartialEq, Eq)]
pub struct Span {
    pub line: u32,
    pub at: u32,
    pub len: u32,
}

impl Span {
    /// The refusal of the token that stands here.
    pub fn refusal(self, kind: Kind) -> Refusal
        ensures { result ≡ refusal kind self }
    {
        Refusal {
            line: self.line,
            kind,
            at: self.at,
            len: self.len,
        }
    }
}

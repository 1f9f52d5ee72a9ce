ghost use Rattle.std.specs.Prelude.{◌≡◌, ◌+◌, ◌≤◌, ◌<◌, ◌^◌, ◌∷◌, take, drop, length, IsSome};
ghost use Rattle.gcl_reader.specs.declared.limits.TheConstants.{MOST_BYTES};

use crate::bytes::{is_blank, is_brace, is_word, word_len};
use crate::limits::MOST_BYTES;
use crate::span::Span;

/// A token, and where it stands. A token without text is a byte that is no text.
#[derive(Clone, Copy)]
pub struct Lexeme<'a> {
    pub line: u32,
    pub at: u32,
    pub text: &'a [u8],
    ghost short: { length text.now < 2 ^ 31 },
}

impl<'a> Lexeme<'a> {
    ghost use Rattle.gcl_reader.specs.Ahead.{token_of};
    ghost use Rattle.gcl_reader.specs.Grammar.{span_of_token};

    /// Where it stands.
    pub fn span(&self) -> Span
        ensures { result ≡ span_of_token (token_of self.now) }
    {
        Span {
            line: self.line,
            at: self.at,
            len: self.text.len() as u32,
        }
    }
}

/// Where a file ends: the line of its last byte, and its length.
#[derive(Clone, Copy)]
pub struct End {
    pub line: u32,
    pub at: u32,
}

impl End {
    /// Where no token is left.
    pub fn span(&self) -> Span
        ensures { result ≡ record { line = self.now.line; at = self.now.at; len = 0 } }
    {
        Span {
            line: self.line,
            at: self.at,
            len: 0,
        }
    }
}

/// Reads the tokens of a file, one at a time.
#[derive(Drop)]
pub struct Lexer<'a> {
    /// The bytes that are left, with the line and the place of the first.
    rest: &'a [u8],
    line: u32,
    at: u32,
    /// The line of the byte before, or 1.
    last: u32,
    ghost fits: { at + length rest.now < 2 ^ 31 },
    ghost lines: { line ≤ at + 1 },
}

impl<'a> Lexer<'a> {
    ghost use Rattle.gcl_reader.specs.Tokens.{lexed, line_after, begins_token, ahead_of, Between, Comment};
    ghost use Rattle.gcl_reader.specs.Ahead.{ahead, ahead_in, next_of, token_of};

    pub fn new(bytes: &'a [u8]) -> Lexer<'a>
        requires { length bytes.now ≤ MOST_BYTES }
        ensures { ahead result ≡ lexed bytes.now }
    {
        Lexer {
            rest: bytes,
            line: 1,
            at: 0,
            last: 1,
        }
    }

    /// Goes past one byte, which ends or begins no token.
    fn pass(&mut self, b: u8, rest: &'a [u8])
        requires { self.old.rest.now ≡ b ∷ rest.now }
        ensures rest { self.new.rest ≡ rest.entry }
        ensures line { self.new.line ≡ line_after b self.old.line }
        ensures at { self.new.at ≡ self.old.at + 1 }
        ensures last { self.new.last ≡ self.old.line }
    {
        self.last = self.line;
        if b == b'\n' {
            self.line += 1;
        }
        self.at += 1;
        self.rest = rest;
    }

    /// Goes past a comment, up to the end of its line.
    #[tactic(auto, unfolding(crate::specs::Tokens::tokens_from, crate::specs::Tokens::last_line))]
    fn pass_comment(&mut self)
        ensures same { ahead self.new ≡ ahead_in Comment self.old }
        ensures shorter { length self.new.rest.now ≤ length self.old.rest.now }
    {
        while let [b, rest @ ..] = self.rest {
            let ends = *b == b'\n';
            self.pass(*b, rest);
            if ends {
                return;
            }
        }
    }

    /// Goes past blanks and comments, up to where a token begins.
    #[tactic(auto, unfolding(crate::specs::Tokens::tokens_from, crate::specs::Tokens::last_line, crate::specs::Tokens::is_blank, crate::specs::Tokens::is_word))]
    fn pass_blanks(&mut self)
        ensures same { ahead self.new ≡ ahead self.old }
        ensures begins { begins_token self.new.rest.now }
    {
        while let [b, rest @ ..] = self.rest {
            let b = *b;
            if b == b'%' {
                self.pass(b, rest);
                self.pass_comment();
            } else if is_blank(b) {
                self.pass(b, rest);
            } else {
                return;
            }
        }
    }

    /// Takes the next bytes, which stand in one line, as a token with the first of them as its text.
    fn cut(&mut self, len: usize, shown: usize) -> Lexeme<'a>
        requires some { 0 < len }
        requires within { len ≤ length self.old.rest.now }
        requires shown { shown ≤ len }
        ensures token { token_of result ≡ record {
          line = self.old.line;
          at = self.old.at;
          text = take shown self.old.rest.now;
        } }
        ensures ahead { ahead self.new
            ≡ ahead_of Between self.old.line self.old.line (self.old.at + len)
            (drop len self.old.rest.now) }
    {
        let (front, rest) = self.rest.split_at(len);
        let (text, _) = front.split_at(shown);
        let token = Lexeme {
            line: self.line,
            at: self.at,
            text,
        };
        self.rest = rest;
        self.at += len as u32;
        self.last = self.line;
        token
    }

    /// The next token, or where the file ends.
    pub fn next(&mut self) -> Result<Lexeme<'a>, End>
        ensures { next_of result (ahead self.old) (ahead self.new) }
    {
        self.pass_blanks();
        let [b, ..] = self.rest else {
            return Err(End {
                line: self.last,
                at: self.at,
            });
        };
        let b = *b;
        if is_word(b) {
            let len = word_len(self.rest);
            return Ok(self.cut(len, len));
        }
        if is_brace(b) {
            return Ok(self.cut(1, 1));
        }
        Ok(self.cut(1, 0))
    }
}

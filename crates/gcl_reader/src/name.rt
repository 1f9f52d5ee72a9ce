ghost use Rattle.std.specs.Prelude.{◌≡◌, ◌≤◌, List, ℕ, take, length, IsTrue};
ghost use Rattle.std.specs.List.{list_all};
ghost use Rattle.std.specs.Str.{bytes_eq};
ghost use Rattle.std.specs.Cmp.Rules.{comparing};
ghost use Rattle.std.proofs.Common.{rules};
ghost use Rattle.gcl_reader.specs.declared.limits.TheConstants.{LONGEST_NAME};
ghost use Rattle.gcl_reader.specs.Name.{is_letter, is_name_byte, is_name, name_of};

use crate::limits::LONGEST_NAME;
use std::marker::Model;

/// A name: a letter, and letters, digits, underscores and apostrophes, all of ASCII; at most `LONGEST_NAME` bytes.
#[derive(Clone, Debug, Drop)]
pub struct Name {
    bytes: [u8; LONGEST_NAME],
    len: u8,
}

impl Model for Name {
    ghost Value = { List ℕ };

    ghost view = { λ name. take name.len name.bytes };

    ghost invariant = { λ name. (name.len ≤ LONGEST_NAME)
        × IsTrue (is_name (take name.len name.bytes)) };
}

impl PartialEq for Name {
    ghost eq = { bytes_eq };

    ghost laws = { Prim.search (comparing, rules) };

    fn eq(&self, other: &Name) -> bool {
        self.bytes() == other.bytes()
    }
}

fn is_letter(byte: u8) -> bool
    ensures { result ≡ is_letter byte }
{
    b'A' <= byte && byte <= b'Z' || b'a' <= byte && byte <= b'z'
}

fn is_name_byte(byte: u8) -> bool
    ensures { result ≡ is_name_byte byte }
{
    is_letter(byte) || b'0' <= byte && byte <= b'9' || byte == b'_' || byte == b'\''
}

fn all_name_bytes(text: &[u8]) -> bool
    ensures { result ≡ list_all is_name_byte text.now }
{
    text.iter().all(|byte| is_name_byte(*byte))
}

/// Whether a text is a name.
#[tactic(auto, unfolding(crate::specs::Name::is_name))]
fn is_name(text: &[u8]) -> bool
    ensures value { result ≡ is_name text.now }
    ensures short { IsTrue result → length text.now ≤ LONGEST_NAME }
{
    match text {
        [] => false,
        [first, rest @ ..] => {
            is_letter(*first) && rest.len() < LONGEST_NAME && all_name_bytes(rest)
        }
    }
}

impl Name {
    /// The name that a text is, or nothing where it is no name.
    pub fn from_bytes(text: &[u8]) -> Option<Name>
        ensures { result ≡ name_of text.now }
    {
        if !is_name(text) {
            return None;
        }
        let mut bytes = [0; LONGEST_NAME];
        let len = text.len();
        bytes[..len].copy_from_slice(text);
        Some(Name {
            bytes,
            len: len as u8,
        })
    }

    /// The same name again.
    pub fn copy(&self) -> Name
        ensures { result ≡ self.now }
    {
        Name {
            bytes: self.bytes,
            len: self.len,
        }
    }

    pub fn bytes(&self) -> &[u8]
        ensures value { result.now ≡ self.now }
        ensures form { IsTrue (is_name result.now) }
    {
        &self.bytes[..self.len as usize]
    }
}

ghost use Rattle.std.specs.Prelude.{◌≡◌, ◌++◌, ◌∷◌, [], length, take, None, OnOk, OnErr, is_some};
ghost use Rattle.gcl_names.specs.Scope.{meaning_in};

use crate::meaning::Meaning;
use indexmap::IndexMap;
use std::alloc::{AllocError, Global};
use std::marker::Model;

/// The names that are defined, in order of definition. The texts are those of the file.
#[derive(Drop)]
pub struct Names<'f> {
    map: IndexMap<&'f [u8], Meaning>,
}

impl<'f> Model for Names<'f> {
    ghost use Rattle.gcl_names.specs.declared.meaning.Meaning.{Meaning};
    ghost use Rattle.std.specs.Prelude.{List, ℕ};
    ghost use Rattle.gcl_names.specs.View.{names_of};

    ghost Value = { List (List ℕ × Meaning) };

    ghost view = { λ n. names_of n.map.entries };
}

impl<'f> Names<'f> {
    pub fn new(alloc: Global) -> Names<'f>
        ensures { result ≡ [] }
    {
        Names {
            map: IndexMap::new(alloc),
        }
    }

    /// How many names are defined.
    pub fn len(&self) -> usize
        ensures { result ≡ length self.now }
    {
        self.map.len()
    }

    /// What a text means among the first so many names.
    pub fn find(&self, text: &[u8], first: usize) -> Option<Meaning>
        ensures { result ≡ meaning_in text.now (take first self.now) }
    {
        match self.map.get_full(text) {
            Some((i, _, meaning)) => { if i < first { Some(*meaning) } else { None } }
            None => None,
        }
    }

    /// Whether a text is a name already.
    pub fn has(&self, text: &[u8]) -> bool
        ensures { result ≡ is_some (meaning_in text.now self.now) }
    {
        self.map.contains_key(text)
    }

    /// Defines a new name.
    pub fn define(&mut self, text: &'f [u8], meaning: Meaning) -> Result<(), AllocError>
        requires { meaning_in text.now self.old ≡ None }
        ensures ok { OnOk result (self.new ≡ self.old ++ (text.entry.now, meaning) ∷ []) }
        ensures err { OnErr result (self.new ≡ self.old) }
    {
        self.map.insert(text, meaning)?;
        Ok(())
    }
}

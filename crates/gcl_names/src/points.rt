ghost use Rattle.std.specs.Prelude.{◌≡◌, ◌++◌, ◌∷◌, [], length, OnOk, OnErr};

use fixed_point::Row;
use gcl_reader::Name;
use std::alloc::{AllocError, Global};
use std::marker::Model;

/// The names of the points, in order of definition.
#[derive(Drop)]
pub struct PointNames {
    names: Vec<Name>,
}

impl Model for PointNames {
    ghost use Rattle.std.specs.Prelude.{List, ℕ};

    ghost Value = { List (List ℕ) };

    ghost view = { λ p. p.names.items };
}

impl PointNames {
    pub fn new(alloc: Global) -> PointNames
        ensures { result ≡ [] }
    {
        PointNames {
            names: Vec::new(alloc),
        }
    }

    pub fn len(&self) -> usize
        ensures { result ≡ length self.now }
    {
        self.names.len()
    }

    pub fn push(&mut self, name: &Name) -> Result<(), AllocError>
        ensures ok { OnOk result (self.new ≡ self.old ++ name.now ∷ []) }
        ensures err { OnErr result (self.new ≡ self.old) }
    {
        self.names.push(name.copy())?;
        Ok(())
    }

    pub fn into_row(self) -> Row<Name>
        ensures { result ≡ self }
    {
        Row::from_vec(self.names)
    }
}

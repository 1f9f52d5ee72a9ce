// A text that is made in memory before any of it is put.
ghost use Rattle.std.specs.Prelude.{◌≡◌, []};

use desk_io::{Failed, Sink};
use std::alloc::Global;
use std::marker::Model;

/// Takes bytes into memory. A put fails only for want of it, which counts as a fault.
#[derive(Drop)]
pub struct Draft {
    bytes: Vec<u8>,
    faults: u64,
}

impl Model for Draft {
    ghost use Rattle.std.specs.Prelude.{List, ℕ};

    ghost Value = { List ℕ × ℕ };

    ghost view = { λ draft. (draft.bytes.items, draft.faults) };
}

impl Draft {
    /// Nothing yet.
    pub fn new(alloc: Global) -> Draft
        ensures { result.0 ≡ [] }
    {
        Draft {
            bytes: Vec::new(alloc),
            faults: 0,
        }
    }

    /// The bytes.
    pub fn into_bytes(self) -> Vec<u8>
        ensures { result.items ≡ self.0 }
    {
        let Draft { bytes, .. } = self;
        bytes
    }
}

impl Sink for Draft {
    ghost use Rattle.std.specs.Prelude.{Some};

    ghost written = { λ draft. Some draft.0 };

    ghost faults = { λ draft. draft.1 };

    fn put(&mut self, bytes: &[u8]) -> Result<(), Failed> {
        match self.bytes.extend_from_slice(bytes) {
            Ok(()) => Ok(()),
            Err(_) => {
                self.faults = self.faults.saturating_add(1);
                Err(Failed)
            }
        }
    }
}

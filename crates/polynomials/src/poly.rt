ghost use Rattle.std.specs.Prelude.{◌≡◌};
ghost use Rattle.polynomials.specs.Held.{slot_of};

use term_store::Slot;

/// A polynomial within the limits, by its slot in a store.
#[derive(Clone, Copy, Debug, PartialEq, Eq)]
pub struct Poly {
    pub(crate) slot: Slot,
}

impl Poly {
    /// The slot of its list of terms.
    pub fn slot(self) -> Slot
        ensures { result.0 ≡ slot_of self }
    {
        self.slot
    }
}

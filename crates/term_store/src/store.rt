ghost use Rattle.std.specs.Prelude.{◌≡◌, ◌≤◌, ◌<◌, ◌+◌, ◌++◌, ◌∷◌, ℕ, List, [], IsTrue, OnOk, OnErr, IfErr, Option, Some, None, length, get_or};
ghost use Rattle.std.specs.FinMap.{insert, remove};
ghost use Rattle.term_store.specs.States.{State, IsLive, list_at, newest_without};
ghost use Rattle.term_store.specs.Faults.{IsFault};

use poly_model::Term;

/// The number of a list in a store. It stays while the list is live, wherever the store moves the list to.
#[derive(Clone, Copy, Debug, PartialEq, Eq)]
pub struct Slot(pub usize);

/// Why a store has no room.
#[derive(Clone, Copy, Debug, PartialEq, Eq)]
pub enum StoreFault {
    /// The store does not grow so far: so many units are spare, and so many are wanted.
    Full { spare: usize, wanted: usize },
    OutOfMemory,
}

/// A store of lists of terms. A live list of n terms uses n + 1 units, and what is spare may be spent on any lists. No
/// call changes the list of another live slot, and only `reserve` takes memory.
pub trait TermStore {
    /// The live lists by their slots, the units that are at hand, and the newest list.
    ghost state: { Self → State };

    /// Makes so many units spare, at least. A refusal changes nothing.
    fn reserve(&mut self, units: usize) -> Result<(), StoreFault>
        ensures lists { (state self.new).lists ≡ (state self.old).lists }
        ensures newest { (state self.new).newest ≡ (state self.old).newest }
        ensures risen { (state self.old).spare ≤ (state self.new).spare }
        ensures ok { OnOk result (units ≤ (state self.new).spare) }
        ensures refused { OnErr result ((state self.new).spare ≡ (state self.old).spare) }
        ensures err { IfErr result (λ fault. IsFault fault (state self.old).spare units) };

    /// A new empty list, which uses one unit.
    fn fresh(&mut self) -> Slot
        requires { 0 < (state self.old).spare }
        ensures vacant { IsLive (state self.old).lists result.0 → ⊥ }
        ensures lists { (state self.new).lists ≡ insert (state self.old).lists result.0 [] }
        ensures spare { (state self.new).spare + 1 ≡ (state self.old).spare }
        ensures newest { (state self.new).newest ≡ Some result.0 };

    /// Appends a term to the list that `fresh` gave last.
    fn push(&mut self, slot: Slot, term: Term)
        requires newest { (state self.old).newest ≡ Some slot.0 }
        requires spare { 0 < (state self.old).spare }
        ensures lists { (state self.new).lists
            ≡ insert (state self.old).lists slot.0 (list_at (state self.old).lists slot.0
            ++ term ∷ []) }
        ensures spare { (state self.new).spare + 1 ≡ (state self.old).spare }
        ensures newest { (state self.new).newest ≡ Some slot.0 };

    /// Gives a list up, and its units back.
    fn free(&mut self, slot: Slot)
        requires { IsLive (state self.old).lists slot.0 }
        ensures lists { (state self.new).lists ≡ remove (state self.old).lists slot.0 }
        ensures spare { (state self.new).spare
            ≡ (state self.old).spare + (length (list_at (state self.old).lists slot.0) + 1) }
        ensures newest { (state self.new).newest ≡ newest_without slot.0 (state self.old).newest };

    /// The number of terms of a list.
    fn len(&self, slot: Slot) -> usize
        requires { IsLive (state self.now).lists slot.0 }
        ensures { result ≡ length (list_at (state self.now).lists slot.0) };

    /// The terms of a list, as they stand.
    fn terms(&self, slot: Slot) -> &[Term]
        requires { IsLive (state self.now).lists slot.0 }
        ensures { result.now ≡ list_at (state self.now).lists slot.0 };

    /// The term at a place of a list.
    fn get(&self, slot: Slot, i: usize) -> Term
        requires live { IsLive (state self.now).lists slot.0 }
        requires below { i < length (list_at (state self.now).lists slot.0) }
        ensures { result ≡ get_or (list_at (state self.now).lists slot.0) i result };

    /// The units that are spare.
    fn spare(&self) -> usize
        ensures { result ≡ (state self.now).spare };
}

ghost use Rattle.std.specs.Prelude.{◌≡◌, ◌≤◌, ◌<◌, ◌+◌, ◌++◌, ◌∷◌, [], IsTrue, OnOk, OnErr, IfOk, length, get_or, take, true, false, Some, None};
ghost use Rattle.std.specs.Vec.{vec_capacity};
ghost use Rattle.term_store.specs.Holding.{held_by};
ghost use Rattle.term_store.specs.States.{nothing};
ghost use Rattle.term_store.specs.Faults.{IsFault};
ghost use Rattle.term_store.specs.declared.store.StoreFault.TheVariants.{OutOfMemory};
ghost use Rattle.std.specs.Prelude.{IfErr};

use crate::seats::{append, count, items, make_room, seat, vacate, widen};
use crate::space::Place;
use crate::store::{Slot, StoreFault, TermStore};
use crate::vec_store::VecStore;
use poly_model::Term;
use std::alloc::{AllocError, Global};

impl VecStore {
    /// A store that holds nothing.
    pub fn new(alloc: Global) -> Result<VecStore, AllocError>
        ensures { IfOk result (λ s. held_by s ≡ nothing) }
    {
        Ok(VecStore {
            terms: Vec::new(alloc),
            places: Vec::new(alloc),
            next_terms: Vec::new(alloc),
            next_places: Vec::new(alloc),
            newest: None,
            spare: 0,
        })
    }
}

impl TermStore for VecStore {
    ghost state = { held_by };

    fn reserve(&mut self, units: usize) -> Result<(), StoreFault>
        ensures lists { (held_by self.new).lists ≡ (held_by self.old).lists }
        ensures newest { (held_by self.new).newest ≡ (held_by self.old).newest }
        ensures risen { (held_by self.old).spare ≤ (held_by self.new).spare }
        ensures ok { OnOk result (units ≤ (held_by self.new).spare) }
        ensures refused { OnErr result ((held_by self.new).spare ≡ (held_by self.old).spare) }
        ensures err { IfErr result (λ fault. IsFault fault (held_by self.old).spare units) }
        ensures never_full { IfErr result (λ fault. fault ≡ OutOfMemory) }
    {
        if units <= self.spare {
            return Ok(());
        }
        let total = count(&self.places)
            .checked_add(units)
            .ok_or(StoreFault::OutOfMemory)?;
        if widen(&mut self.terms, total).is_err()
            || widen(&mut self.places, total).is_err()
            || widen(&mut self.next_terms, total).is_err()
            || widen(&mut self.next_places, total).is_err()
        {
            return Err(StoreFault::OutOfMemory);
        }
        self.spare = units;
        Ok(())
    }

    fn fresh(&mut self) -> Slot {
        let place = Place {
            live: true,
            start: self.terms.len(),
            len: 0,
        };
        let slot = seat(&mut self.places, place);
        self.newest = Some(slot);
        self.spare -= 1;
        Slot(slot)
    }

    #[inline(always)]
    fn push(&mut self, slot: Slot, term: Term) {
        make_room(
            &mut self.terms,
            &mut self.places,
            &mut self.next_terms,
            &mut self.next_places,
            slot.0,
        );
        append(&mut self.terms, &mut self.places, slot.0, term);
        self.spare -= 1;
    }

    fn free(&mut self, slot: Slot) {
        let len = self.places[slot.0].len;
        vacate(&mut self.places, slot.0);
        self.spare += len + 1;
        if self.newest == Some(slot.0) {
            self.newest = None;
        }
    }

    fn len(&self, slot: Slot) -> usize {
        self.places[slot.0].len
    }

    fn terms(&self, slot: Slot) -> &[Term] {
        let place = self.places[slot.0];
        items(&self.terms, place.start, place.len)
    }

    fn get(&self, slot: Slot, i: usize) -> Term {
        self.terms[self.places[slot.0].start + i]
    }

    fn spare(&self) -> usize {
        self.spare
    }
}

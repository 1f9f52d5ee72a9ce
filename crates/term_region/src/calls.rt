ghost use Rattle.std.specs.Prelude.{◌≡◌, ◌≤◌, ◌<◌, ◌+◌, ◌++◌, ◌∷◌, [], IsTrue, OnOk, OnErr, IfOk, IfErr, length, get_or, true, false, Some, None};
ghost use Rattle.std.specs.FinMap.{empty};
ghost use Rattle.term_region.specs.Holding.{held_by};
ghost use Rattle.term_store.specs.Faults.{IsFault};
ghost use Rattle.term_store.specs.declared.store.StoreFault.TheVariants.{Full};

use crate::moving::{make_room, make_way};
use crate::region::TermRegion;
use crate::run::Run;
use crate::seats::{append, forget, items, last_end, seat, vacate};
use poly_model::Term;
use std::alloc::{AllocError, Global};
use term_store::{Slot, StoreFault, TermStore};

impl TermRegion {
    /// A store with so many units, and no list.
    pub fn open(alloc: Global, units: usize) -> Result<TermRegion, AllocError>
        ensures { IfOk result (λ s. held_by s ≡ record {
          lists = empty;
          spare = units;
          newest = None;
        }) }
    {
        Ok(TermRegion {
            terms: Vec::with_capacity(alloc, units)?,
            runs: Vec::with_capacity(alloc, units)?,
            order: Vec::with_capacity(alloc, units)?,
            vacant: Vec::with_capacity(alloc, units)?,
            newest: None,
            spare: units,
            total: units,
        })
    }
}

impl TermStore for TermRegion {
    ghost state = { held_by };

    fn reserve(&mut self, units: usize) -> Result<(), StoreFault>
        ensures lists { (held_by self.new).lists ≡ (held_by self.old).lists }
        ensures newest { (held_by self.new).newest ≡ (held_by self.old).newest }
        ensures risen { (held_by self.old).spare ≤ (held_by self.new).spare }
        ensures ok { OnOk result (units ≤ (held_by self.new).spare) }
        ensures refused { OnErr result ((held_by self.new).spare ≡ (held_by self.old).spare) }
        ensures err { IfErr result (λ fault. IsFault fault (held_by self.old).spare units) }
        ensures same { (held_by self.new).spare ≡ (held_by self.old).spare }
        ensures full { IfErr result (λ fault. fault ≡ Full (held_by self.old).spare units) }
        ensures only_full { OnErr result ((held_by self.old).spare < units) }
    {
        if units <= self.spare {
            Ok(())
        } else {
            Err(StoreFault::Full {
                spare: self.spare,
                wanted: units,
            })
        }
    }

    #[inline(always)]
    fn fresh(&mut self) -> Slot {
        make_way(
            &mut self.terms,
            &mut self.runs,
            &mut self.order,
            self.total,
            self.total - self.spare,
        );
        let run = Run {
            live: true,
            start: self.terms.len(),
            len: 0,
            rank: self.order.len(),
        };
        let slot = seat(&mut self.runs, &mut self.vacant, run);
        match self.order.push(slot) {
            Ok(()) => {}
            Err(_) => unreachable!(),
        }
        self.newest = Some(slot);
        self.spare -= 1;
        Slot(slot)
    }

    #[inline(always)]
    fn push(&mut self, slot: Slot, term: Term) {
        make_room(&mut self.terms, &mut self.runs, &mut self.order, self.total);
        append(
            &mut self.terms,
            &mut self.runs,
            slot.0,
            term,
            self.order.len(),
        );
        self.spare -= 1;
    }

    #[inline(always)]
    fn free(&mut self, slot: Slot) {
        let run = self.runs[slot.0];
        vacate(&mut self.runs, &mut self.vacant, slot.0);
        forget(&mut self.newest, slot.0);
        let end = last_end(
            &self.runs,
            &mut self.order,
            self.terms.len(),
            run.rank,
            run.start,
        );
        self.terms.truncate(end);
        self.spare += run.len + 1;
    }

    fn len(&self, slot: Slot) -> usize {
        self.runs[slot.0].len
    }

    fn terms(&self, slot: Slot) -> &[Term] {
        let run = self.runs[slot.0];
        items(&self.terms, run.start, run.len)
    }

    fn get(&self, slot: Slot, i: usize) -> Term {
        self.terms[self.runs[slot.0].start + i]
    }

    fn spare(&self) -> usize {
        self.spare
    }
}

ghost use Rattle.std.specs.Prelude.{◌≤◌};
ghost use Rattle.poly_model.specs.declared.limits.TheConstants.{EXPAND_UNITS};
ghost use Rattle.term_region.specs.Holding.{held_by};

use poly_model::EXPAND_UNITS;
use std::alloc::{AllocError, Global};
use term_region::TermRegion;

/// What a worker keeps from node to node: a store that has room for the work on any.
#[derive(Drop)]
pub struct Room {
    pub store: TermRegion,
    ghost enough: { EXPAND_UNITS ≤ (held_by store).spare },
}

impl Room {
    pub fn new(alloc: Global) -> Result<Room, AllocError> {
        Ok(Room {
            store: TermRegion::open(alloc, EXPAND_UNITS)?,
        })
    }
}

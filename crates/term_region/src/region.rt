ghost use Rattle.std.specs.Vec.{vec_capacity};
ghost use Rattle.std.specs.Prelude.{length};
ghost use Rattle.term_region.specs.Pool.{Kept, Kept-prop};

use crate::run::Run;
use poly_model::Term;

/// A store of one size, which takes all its memory when it is opened.
///
/// All terms stand in one pool, a run for each list. `runs` says by slot where the list stands; `order` has the slots in
/// the order of their places, and an entry whose run has gone is a free run. Where the pool is used up, the live runs
/// move down over the free ones, and the slots stay.
#[derive(Debug, Drop)]
pub struct TermRegion {
    pub(crate) terms: Vec<Term>,
    pub(crate) runs: Vec<Run>,
    pub(crate) order: Vec<usize>,
    pub(crate) vacant: Vec<usize>,
    pub(crate) newest: Option<usize>,
    pub(crate) spare: usize,
    pub(crate) total: usize,
    ghost kept: { Kept (length terms.items) runs.items order.items vacant.items newest spare total
        (vec_capacity terms) (vec_capacity runs) (vec_capacity order) (vec_capacity vacant) } by { Kept-prop _ _ _ _ _ _ _ _ _ _ _ },
}

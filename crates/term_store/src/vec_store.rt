ghost use Rattle.std.specs.Vec.{vec_capacity};
ghost use Rattle.term_store.specs.Runs.{Kept, Kept-prop};

use crate::space::Place;
use poly_model::Term;

/// A store that grows. All terms stand in one list, and the live ones are gathered anew where it is full: spare units
/// may be spent on any lists in any order after any lists were given up, and no call but `reserve` takes memory.
#[derive(Debug, Drop)]
pub struct VecStore {
    pub(crate) terms: Vec<Term>,
    pub(crate) places: Vec<Place>,
    pub(crate) next_terms: Vec<Term>,
    pub(crate) next_places: Vec<Place>,
    pub(crate) newest: Option<usize>,
    pub(crate) spare: usize,
    ghost kept: { Kept terms.items places.items newest spare (vec_capacity terms) (vec_capacity
        places) (vec_capacity next_terms) (vec_capacity next_places) } by { Kept-prop _ _ _ _ _ _ _
            _ },
}

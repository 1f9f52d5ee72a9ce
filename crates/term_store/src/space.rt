ghost use Rattle.std.specs.Prelude.{◌≡◌, ◌≤◌, ◌<◌, ◌+◌, ◌++◌, ◌∷◌, [], IsTrue, OnOk, length, get_or, take, true, false};
ghost use Rattle.std.specs.List.{list_all};
ghost use Rattle.std.specs.Vec.{vec_capacity};
ghost use Rattle.term_store.specs.Runs.{gathered, placed, are_inside, units, terms_in, is_used};

use poly_model::Term;

/// Where a list stands among the terms of a space. A place that is not live is free for another list.
#[derive(Clone, Copy, Debug)]
pub struct Place {
    pub live: bool,
    pub start: usize,
    pub len: usize,
}

/// The first place that is free, or the number of places.
pub fn free_place(places: &[Place]) -> usize
    ensures within { result ≤ length places.now }
    ensures used { IsTrue (list_all is_used (take result places.now)) }
    ensures vacant { result < length places.now
        → is_used (get_or places.now result record { live = false; start = 0; len = 0 }) ≡ false }
{
    let mut i = 0;
    while i < places.len() && places[i].live {
        i += 1;
    }
    i
}

/// Copies the live lists, one behind the other.
pub fn gather(
    terms: &[Term],
    places: &[Place],
    to_terms: &mut Vec<Term>,
    to_places: &mut Vec<Place>,
)
    requires inside { IsTrue (are_inside (length terms.now) places.now) }
    requires terms { to_terms.old.items ≡ [] }
    requires places { to_places.old.items ≡ [] }
    requires room { terms_in places.now ≤ vec_capacity to_terms.old }
    requires seats { length places.now ≤ vec_capacity to_places.old }
    ensures terms { to_terms.new.items ≡ gathered terms.now places.now }
    ensures places { to_places.new.items ≡ placed 0 places.now }
    ensures room { vec_capacity to_terms.old ≤ vec_capacity to_terms.new }
    ensures seats { vec_capacity to_places.old ≤ vec_capacity to_places.new }
{
    let mut rest = places;
    while let Some((place, after)) = rest.split_first() {
        let mut moved = *place;
        if place.live {
            moved.start = to_terms.len();
            match to_terms.extend_from_slice(&terms[place.start..place.start + place.len]) {
                Ok(()) => {}
                Err(_) => unreachable!(),
            }
        }
        match to_places.push(moved) {
            Ok(()) => {}
            Err(_) => unreachable!(),
        }
        rest = after;
    }
}

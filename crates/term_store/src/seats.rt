ghost use Rattle.std.specs.Prelude.{◌≡◌, ◌≢◌, ◌≤◌, ◌<◌, ◌+◌, ◌++◌, ◌∷◌, ℕ, List, [], ◌^◌, OnOk, IsTrue, length, take, drop, get_or, min, true, false};
ghost use Rattle.std.specs.Vec.{vec_capacity};
ghost use Rattle.poly_model.specs.declared.term.Term.{Term};
ghost use Rattle.term_store.specs.Runs.{are_inside, is_inside, units, units_of, list_in, is_last, nowhere, run_of, vacated, Gathered};

use crate::space::{Place, free_place, gather};
use poly_model::Term;
use std::alloc::AllocError;
use std::mem;

/// Puts a live place where none is, and answers its slot.
pub fn seat(places: &mut Vec<Place>, place: Place) -> usize
    requires live { place.live ≡ true }
    requires room { units places.old.items < vec_capacity places.old }
    ensures below { result < length places.new.items }
    ensures vacant { (get_or places.old.items result nowhere).live ≡ false }
    ensures here { get_or places.new.items result nowhere ≡ place }
    ensures others { (j : ℕ) → j ≢ result
        → get_or places.new.items j nowhere ≡ get_or places.old.items j nowhere }
    ensures units { units places.new.items ≡ units places.old.items + units_of place }
    ensures inside { (n : ℕ) → IsTrue (are_inside n places.old.items)
        → IsTrue (is_inside n place) → IsTrue (are_inside n places.new.items) }
    ensures capacity { vec_capacity places.old ≤ vec_capacity places.new }
    ensures fits { (n : ℕ) → length places.old.items ≤ n → units places.old.items < n
        → length places.new.items ≤ n }
{
    let slot = free_place(places);
    if slot < places.len() {
        places[slot] = place;
    } else {
        match places.push(place) {
            Ok(()) => {}
            Err(_) => unreachable!(),
        }
    }
    slot
}

/// Copies the live lists, the one at the place `last` behind the others, and leaves its place free.
fn gather_behind(
    terms: &[Term],
    places: &mut Vec<Place>,
    next_terms: &mut Vec<Term>,
    next_places: &mut Vec<Place>,
    last: usize,
)
    requires inside { IsTrue (are_inside (length terms.now) places.old.items) }
    requires room { units places.old.items ≤ vec_capacity next_terms.old }
    requires seats { length places.old.items ≤ vec_capacity next_places.old }
    requires below { last < length places.old.items }
    requires live { (get_or places.old.items last nowhere).live ≡ true }
    ensures gathered { Gathered terms.now places.old.items next_terms.new.items
        next_places.new.items last }
    ensures room { vec_capacity next_terms.old ≤ vec_capacity next_terms.new }
    ensures seats { vec_capacity next_places.old ≤ vec_capacity next_places.new }
    ensures kept { vec_capacity places.new ≡ vec_capacity places.old }
{
    next_terms.clear();
    next_places.clear();
    let place = places[last];
    vacate(places, last);
    gather(terms, places, next_terms, next_places);
    let start = next_terms.len();
    match next_terms.extend_from_slice(&terms[place.start..place.start + place.len]) {
        Ok(()) => {}
        Err(_) => unreachable!(),
    }
    next_places[last] = Place {
        live: true,
        start,
        len: place.len,
    };
}

/// Gathers the live lists anew. The one at the place `last` comes last.
#[cold]
#[inline(never)]
pub fn compact(
    terms: &mut Vec<Term>,
    places: &mut Vec<Place>,
    next_terms: &mut Vec<Term>,
    next_places: &mut Vec<Place>,
    last: usize,
)
    requires inside { IsTrue (are_inside (length terms.old.items) places.old.items) }
    requires room { units places.old.items ≤ vec_capacity next_terms.old }
    requires seats { length places.old.items ≤ vec_capacity next_places.old }
    requires below { last < length places.old.items }
    requires live { (get_or places.old.items last nowhere).live ≡ true }
    ensures gathered { Gathered terms.old.items places.old.items terms.new.items places.new.items
        last }
    ensures room { vec_capacity next_terms.old ≤ vec_capacity terms.new }
    ensures next_room { vec_capacity next_terms.new ≡ vec_capacity terms.old }
    ensures seats { vec_capacity next_places.old ≤ vec_capacity places.new }
    ensures next_seats { vec_capacity next_places.new ≡ vec_capacity places.old }
{
    gather_behind(terms, places, next_terms, next_places, last);
    mem::swap(terms, next_terms);
    mem::swap(places, next_places);
}

/// Makes room for one term behind the list that ends last.
#[inline(always)]
pub fn make_room(
    terms: &mut Vec<Term>,
    places: &mut Vec<Place>,
    next_terms: &mut Vec<Term>,
    next_places: &mut Vec<Place>,
    last: usize,
)
    requires inside { IsTrue (are_inside (length terms.old.items) places.old.items) }
    requires room { units places.old.items ≤ vec_capacity next_terms.old }
    requires seats { length places.old.items ≤ vec_capacity next_places.old }
    requires below { last < length places.old.items }
    requires last { IsTrue (is_last (length terms.old.items) (get_or places.old.items last
        nowhere)) }
    ensures lists { (k : ℕ) → list_in terms.new.items places.new.items k
        ≡ list_in terms.old.items places.old.items k }
    ensures units { units places.new.items ≡ units places.old.items }
    ensures places { length places.new.items ≡ length places.old.items }
    ensures inside { IsTrue (are_inside (length terms.new.items) places.new.items) }
    ensures last { IsTrue
        (is_last (length terms.new.items) (get_or places.new.items last nowhere)) }
    ensures free { length terms.new.items < vec_capacity terms.new }
    ensures room { min (vec_capacity terms.old) (vec_capacity next_terms.old) ≤ vec_capacity
        terms.new }
    ensures next_room { min (vec_capacity terms.old) (vec_capacity next_terms.old) ≤ vec_capacity
        next_terms.new }
    ensures seats { min (vec_capacity places.old) (vec_capacity next_places.old) ≤ vec_capacity
        places.new }
    ensures next_seats { min (vec_capacity places.old) (vec_capacity next_places.old) ≤
        vec_capacity next_places.new }
{
    if terms.len() == terms.capacity() {
        compact(terms, places, next_terms, next_places, last);
    }
}

/// Appends a term to the list that ends last.
#[inline(always)]
pub fn append(terms: &mut Vec<Term>, places: &mut Vec<Place>, slot: usize, term: Term)
    requires below { slot < length places.old.items }
    requires last { IsTrue (is_last (length terms.old.items) (get_or places.old.items slot
        nowhere)) }
    requires inside { IsTrue (are_inside (length terms.old.items) places.old.items) }
    requires room { length terms.old.items < vec_capacity terms.old }
    ensures terms { terms.new.items ≡ terms.old.items ++ term ∷ [] }
    ensures places { length places.new.items ≡ length places.old.items }
    ensures others { (j : ℕ) → j ≢ slot
        → list_in terms.new.items places.new.items j ≡ list_in terms.old.items places.old.items j }
    ensures here { run_of terms.new.items (get_or places.new.items slot nowhere)
        ≡ run_of terms.old.items (get_or places.old.items slot nowhere) ++ term ∷ [] }
    ensures units { units places.new.items ≡ units places.old.items + 1 }
    ensures inside { IsTrue (are_inside (length terms.new.items) places.new.items) }
    ensures last { IsTrue
        (is_last (length terms.new.items) (get_or places.new.items slot nowhere)) }
    ensures room { vec_capacity terms.old ≤ vec_capacity terms.new }
    ensures seats { vec_capacity places.new ≡ vec_capacity places.old }
{
    match terms.push(term) {
        Ok(()) => {}
        Err(_) => unreachable!(),
    }
    places[slot].len += 1;
}

/// Gives the list at a slot up.
pub fn vacate(places: &mut Vec<Place>, slot: usize)
    requires below { slot < length places.old.items }
    ensures places { length places.new.items ≡ length places.old.items }
    ensures vacated { places.new.items ≡ vacated places.old.items slot }
    ensures here { (get_or places.new.items slot nowhere).live ≡ false }
    ensures others { (j : ℕ) → j ≢ slot
        → get_or places.new.items j nowhere ≡ get_or places.old.items j nowhere }
    ensures units { units places.new.items + units_of (get_or places.old.items slot nowhere)
        ≡ units places.old.items }
    ensures inside { (n : ℕ) → IsTrue (are_inside n places.old.items)
        → IsTrue (are_inside n places.new.items) }
    ensures seats { vec_capacity places.new ≡ vec_capacity places.old }
{
    places[slot].live = false;
}

/// So many terms, from a place on.
#[inline(always)]
pub fn items(terms: &[Term], start: usize, len: usize) -> &[Term]
    requires { start + len ≤ length terms.now }
    ensures { result.now ≡ take len (drop start terms.now) }
{
    &terms[start..start + len]
}

/// The units of all live lists.
pub fn count(places: &[Place]) -> usize
    requires { units places.now < 2 ^ 64 }
    ensures { result ≡ units places.now }
{
    let mut sum = 0;
    let mut rest = places;
    while let Some((place, after)) = rest.split_first() {
        if place.live {
            sum += place.len + 1;
        }
        rest = after;
    }
    sum
}

/// Makes the capacity at least so much.
pub fn widen<T>(list: &mut Vec<T>, total: usize) -> Result<(), AllocError>
    ensures items { list.new.items ≡ list.old.items }
    ensures wider { vec_capacity list.old ≤ vec_capacity list.new }
    ensures ok { OnOk result (total ≤ vec_capacity list.new) }
{
    let more = total.saturating_sub(list.len());
    list.reserve(more)
}

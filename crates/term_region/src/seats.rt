ghost use Rattle.std.specs.Prelude.{◌≡◌, ◌≢◌, ◌≤◌, ◌<◌, ◌+◌, ◌-◌, ◌++◌, ◌∷◌, ℕ, suc, [], IsTrue, length, take, drop, true, false, get_or};
ghost use Rattle.std.specs.Vec.{vec_capacity};
ghost use Rattle.term_region.specs.Pool.{run_at, list_of, Ordered, Vacant, Stays, sum_of, one_of, units_of, ends_last};
ghost use Rattle.term_store.specs.States.{newest_without};

use crate::run::Run;
use poly_model::Term;

/// Puts a live run at a vacant slot, or at one more, and answers the slot.
#[inline(always)]
pub fn seat(runs: &mut Vec<Run>, vacant: &mut Vec<usize>, run: Run) -> usize
    requires live { run.live ≡ true }
    requires vacant { Vacant runs.old.items vacant.old.items }
    requires room { sum_of units_of runs.old.items < vec_capacity runs.old }
    ensures was_dead { (run_at runs.old.items result).live ≡ false }
    ensures here { run_at runs.new.items result ≡ run }
    ensures others { (j : ℕ) → j ≢ result → run_at runs.new.items j ≡ run_at runs.old.items j }
    ensures below { result < length runs.new.items }
    ensures more { length runs.old.items ≤ length runs.new.items }
    ensures vacant { Vacant runs.new.items vacant.new.items }
    ensures units { sum_of units_of runs.new.items
        ≡ sum_of units_of runs.old.items + (run.len + 1) }
    ensures fits { (n : ℕ) → length runs.old.items ≤ n → sum_of units_of runs.old.items < n
        → length runs.new.items ≤ n }
    ensures room { vec_capacity runs.old ≤ vec_capacity runs.new }
    ensures vacant_room { vec_capacity vacant.new ≡ vec_capacity vacant.old }
{
    match vacant.pop() {
        Some(slot) => {
            runs[slot] = run;
            slot
        }
        None => {
            let slot = runs.len();
            match runs.push(run) {
                Ok(()) => {}
                Err(_) => unreachable!(),
            }
            slot
        }
    }
}

/// So many terms, from a place on.
#[inline(always)]
pub fn items(terms: &[Term], start: usize, len: usize) -> &[Term]
    requires { start + len ≤ length terms.now }
    ensures { result.now ≡ take len (drop start terms.now) }
{
    &terms[start..start + len]
}

/// Appends a term to the list that ends last.
#[inline(always)]
pub fn append(terms: &mut Vec<Term>, runs: &mut Vec<Run>, slot: usize, term: Term, entries: usize)
    requires last { IsTrue (ends_last runs.old.items entries (length terms.old.items) slot) }
    requires below { slot < length runs.old.items }
    requires room { length terms.old.items < vec_capacity terms.old }
    ensures terms { terms.new.items ≡ terms.old.items ++ term ∷ [] }
    ensures here { run_at runs.new.items slot ≡ record (run_at runs.old.items slot) {
      len = (run_at runs.old.items slot).len + 1;
    } }
    ensures others { (j : ℕ) → j ≢ slot → run_at runs.new.items j ≡ run_at runs.old.items j }
    ensures slots { length runs.new.items ≡ length runs.old.items }
    ensures units { sum_of units_of runs.new.items ≡ sum_of units_of runs.old.items + 1 }
    ensures count { sum_of one_of runs.new.items ≡ sum_of one_of runs.old.items }
    ensures last { IsTrue (ends_last runs.new.items entries (length terms.new.items) slot) }
    ensures room { vec_capacity terms.old ≤ vec_capacity terms.new }
    ensures runs_room { vec_capacity runs.new ≡ vec_capacity runs.old }
{
    match terms.push(term) {
        Ok(()) => {}
        Err(_) => unreachable!(),
    }
    runs[slot].len += 1;
}

/// Gives the run of a slot up, and the slot back.
#[inline(always)]
pub fn vacate(runs: &mut Vec<Run>, vacant: &mut Vec<usize>, slot: usize)
    requires live { (run_at runs.old.items slot).live ≡ true }
    requires vacant { Vacant runs.old.items vacant.old.items }
    requires room { length runs.old.items ≤ vec_capacity vacant.old }
    ensures dead { (run_at runs.new.items slot).live ≡ false }
    ensures others { (j : ℕ) → j ≢ slot → run_at runs.new.items j ≡ run_at runs.old.items j }
    ensures slots { length runs.new.items ≡ length runs.old.items }
    ensures units { sum_of units_of runs.new.items + ((run_at runs.old.items slot).len + 1)
        ≡ sum_of units_of runs.old.items }
    ensures vacant { Vacant runs.new.items vacant.new.items }
    ensures runs_room { vec_capacity runs.new ≡ vec_capacity runs.old }
    ensures vacant_room { vec_capacity vacant.old ≤ vec_capacity vacant.new }
{
    runs[slot].live = false;
    match vacant.push(slot) {
        Ok(()) => {}
        Err(_) => unreachable!(),
    }
}

/// Gives the entry of a run up that is given up, where it is the last, and answers where the terms of the others end. Where
/// it is not the last, its entry stays, and its terms stand unused, until all are gathered.
#[inline(always)]
pub fn last_end(
    runs: &[Run],
    order: &mut Vec<usize>,
    most: usize,
    rank: usize,
    start: usize,
) -> usize
    requires ordered { Ordered runs.now order.old.items most }
    requires rank { rank < length order.old.items }
    requires start { start ≤ most }
    requires alone { (k : ℕ) → (run_at runs.now k).live ≡ true → (run_at runs.now k).rank ≢ rank }
    requires before { (k : ℕ) → (run_at runs.now k).live ≡ true → (run_at runs.now k).rank < rank
        → (run_at runs.now k).start + (run_at runs.now k).len ≤ start }
    ensures ordered { Ordered runs.now order.new.items result }
    ensures shorter { length order.new.items ≤ length order.old.items }
    ensures within { result ≤ most }
    ensures last { (k : ℕ) → IsTrue (ends_last runs.now (length order.old.items) most k)
        → IsTrue (ends_last runs.now (length order.new.items) result k) }
    ensures order_room { vec_capacity order.new ≡ vec_capacity order.old }
{
    if order.len() - rank > 1 {
        return most;
    }
    order.truncate(rank);
    start
}

/// Forgets the newest list, where it is the one that is given up.
#[inline(always)]
pub fn forget(newest: &mut Option<usize>, slot: usize)
    ensures { newest.new ≡ newest_without slot newest.old }
{
    if *newest == Some(slot) {
        *newest = None;
    }
}

// Lists copied with a change of each term.
ghost use Rattle.std.specs.Prelude.{◌≡◌, ◌<◌, ◌+◌, IsTrue, Bool, true, length, nat_lt};
ghost use Rattle.std.specs.List.{list_all};
ghost use Rattle.poly_model.specs.Polynomial.{Entry, Polynomial};
ghost use Rattle.poly_model.specs.Standard.{entry_of, is_bounded, polynomial_of};
ghost use Rattle.term_store.specs.States.{IsLive, list_at};
ghost use Rattle.term_store.specs.Changes.{Makes};
ghost use Rattle.polynomials.specs.Pieces.{pieces_of, piece_of, negated, unchanged, raised, is_raisable, lowered_entry, is_lowerable, cofactor, other_power, has_place, divided, is_divisible};

use poly_model::Term;
use term_store::{Slot, TermStore};

/// What becomes of a term: another one, or none.
pub trait Change {
    ghost piece: { Self → Entry → Polynomial };

    ghost takes: { Self → Entry → Bool };

    fn of(&self, term: &Term) -> Option<Term>
        requires { IsTrue (takes self.now (entry_of term.now)) }
        ensures { piece_of result ≡ piece self.now (entry_of term.now) };
}

/// Each term as it is.
#[derive(Clone, Copy, Debug)]
pub struct Unchanged;

impl Change for Unchanged {
    ghost piece = { λ _. unchanged };

    ghost takes = { λ _ _. true };

    fn of(&self, term: &Term) -> Option<Term> {
        Some(*term)
    }
}

/// The negative of each term.
#[derive(Clone, Copy, Debug)]
pub struct Negated;

impl Change for Negated {
    ghost piece = { λ _. negated };

    ghost takes = { λ _ e. is_bounded e.1 };

    fn of(&self, term: &Term) -> Option<Term> {
        Some(Term {
            coef: -term.coef,
            exps: term.exps,
        })
    }
}

/// Each term times a power of a variable.
#[derive(Clone, Copy, Debug)]
pub struct Raised {
    pub var: u8,
    pub by: u8,
}

impl Change for Raised {
    ghost piece = { λ c. raised c.var c.by };

    ghost takes = { λ c. is_raisable c.var c.by };

    fn of(&self, term: &Term) -> Option<Term> {
        let mut exps = term.exps;
        exps[self.var as usize] += self.by;
        Some(Term {
            coef: term.coef,
            exps,
        })
    }
}

/// Each term divided by a power of a variable.
#[derive(Clone, Copy, Debug)]
pub struct Lowered {
    pub var: u8,
    pub by: u8,
}

impl Change for Lowered {
    ghost piece = { λ c. lowered_entry c.var c.by };

    ghost takes = { λ c. is_lowerable c.var c.by };

    fn of(&self, term: &Term) -> Option<Term> {
        let mut exps = term.exps;
        exps[self.var as usize] -= self.by;
        Some(Term {
            coef: term.coef,
            exps,
        })
    }
}

/// What is beside a power of a variable, of the terms with that power alone.
#[derive(Clone, Copy, Debug)]
pub struct Cofactor {
    pub var: u8,
    pub power: u8,
}

impl Change for Cofactor {
    ghost piece = { λ c. cofactor c.var c.power };

    ghost takes = { λ c. has_place c.var };

    fn of(&self, term: &Term) -> Option<Term> {
        if term.exps[self.var as usize] != self.power {
            return None;
        }
        let mut exps = term.exps;
        exps[self.var as usize] = 0;
        Some(Term {
            coef: term.coef,
            exps,
        })
    }
}

/// The terms with another power of a variable alone.
#[derive(Clone, Copy, Debug)]
pub struct OtherPower {
    pub var: u8,
    pub power: u8,
}

impl Change for OtherPower {
    ghost piece = { λ c. other_power c.var c.power };

    ghost takes = { λ c. has_place c.var };

    fn of(&self, term: &Term) -> Option<Term> {
        if term.exps[self.var as usize] == self.power {
            return None;
        }
        Some(*term)
    }
}

/// Each term divided by a positive number, with its sign turned where so.
#[derive(Clone, Copy, Debug)]
pub struct Divided {
    pub turned: bool,
    pub divisor: u128,
}

impl Change for Divided {
    ghost piece = { λ c. divided c.turned c.divisor };

    ghost takes = { λ c. is_divisible c.divisor };

    fn of(&self, term: &Term) -> Option<Term> {
        let size = (term.coef.unsigned_abs() / self.divisor) as i128;
        let coef = if (term.coef < 0) == self.turned {
            size
        } else {
            -size
        };
        Some(Term {
            coef,
            exps: term.exps,
        })
    }
}

/// The list of the changed terms, in a new slot.
pub fn changed<S: TermStore, C: Change>(s: &mut S, change: &C, q: Slot) -> Slot
    requires live { IsLive (S.state s.old).lists q.0 }
    requires takes { IsTrue (list_all (C.takes change.now)
        (polynomial_of (list_at (S.state s.old).lists q.0))) }
    requires room { length (list_at (S.state s.old).lists q.0) < (S.state s.old).spare }
    ensures made { Makes (S.state s.old) (S.state s.new) result.0 }
    ensures value { polynomial_of (list_at (S.state s.new).lists result.0)
        ≡ pieces_of (C.piece change.now) (polynomial_of (list_at (S.state s.old).lists q.0)) }
{
    let count = s.len(q);
    let out = s.fresh();
    for i in 0..count {
        let term = s.get(q, i);
        if let Some(other) = change.of(&term) {
            s.push(out, other);
        }
    }
    out
}

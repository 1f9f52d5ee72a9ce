// Calls on one polynomial of a store that the rules of elimination are made of.
ghost use Rattle.std.specs.Prelude.{◌≡◌, ◌≤◌, ◌<◌, ◌+◌, length, false};
ghost use Rattle.std.specs.FinMap.{remove};
ghost use Rattle.poly_model.specs.Reduction.{class_of, is_constant, main_place, main_degree, primitive_initial, primitive_tail};
ghost use Rattle.poly_model.specs.declared.limits.TheConstants.{MOST_VARIABLES, ARITH_UNITS, POLY_UNITS};
ghost use Rattle.term_store.specs.States.{IsLive, list_at, newest_without};
ghost use Rattle.polynomials.specs.Held.{IsPoly, Gives, polynomial_at, slot_of};

use polynomials::{Poly, class, coefficient, degree, prim, tail};
use term_store::TermStore;

/// Gives the list of a polynomial up.
pub fn give_up<S: TermStore>(s: &mut S, p: Poly)
    requires { IsLive (S.state s.old).lists (slot_of p) }
    ensures lists { (S.state s.new).lists ≡ remove (S.state s.old).lists (slot_of p) }
    ensures spare { (S.state s.new).spare
        ≡ (S.state s.old).spare + (length (list_at (S.state s.old).lists (slot_of p)) + 1) }
    ensures newest { (S.state s.new).newest
        ≡ newest_without (slot_of p) (S.state s.old).newest }
{
    s.free(p.slot());
}

/// The number of terms.
pub fn term_count<S: TermStore>(s: &S, p: Poly) -> u32
    requires { IsPoly (S.state s.now) p }
    ensures { result ≡ length (polynomial_at (S.state s.now) p) }
{
    s.len(p.slot()) as u32
}

/// The number of the greatest variable, and 0 of a constant.
pub fn class_number<S: TermStore>(s: &S, p: Poly) -> u8
    requires { IsPoly (S.state s.now) p }
    ensures class { result ≡ class_of (polynomial_at (S.state s.now) p) }
    ensures within { result ≤ MOST_VARIABLES }
{
    match class(s, p) {
        None => 0,
        Some(place) => place + 1,
    }
}

/// The place of the greatest variable, and the first place of a constant.
fn place<S: TermStore>(s: &S, p: Poly) -> u8
    requires { IsPoly (S.state s.now) p }
    ensures place { result ≡ main_place (polynomial_at (S.state s.now) p) }
    ensures below { result < MOST_VARIABLES }
{
    class_number(s, p).saturating_sub(1)
}

/// The degree in the greatest variable.
pub fn main_degree<S: TermStore>(s: &S, p: Poly) -> u8
    requires { IsPoly (S.state s.now) p }
    ensures { result ≡ main_degree (polynomial_at (S.state s.now) p) }
{
    degree(s, p, place(s, p))
}

/// The primitive part of the initial.
pub fn primitive_initial<S: TermStore>(s: &mut S, p: Poly) -> Poly
    requires p { IsPoly (S.state s.old) p }
    requires room { ARITH_UNITS + POLY_UNITS ≤ (S.state s.old).spare }
    ensures { Gives (S.state s.old) (S.state s.new) result
        (primitive_initial (polynomial_at (S.state s.old) p)) }
{
    let power = main_degree(s, p);
    let initial = coefficient(s, p, place(s, p), power);
    let (_, part) = prim(s, initial);
    give_up(s, initial);
    part
}

/// The primitive part of the tail.
pub fn primitive_tail<S: TermStore>(s: &mut S, p: Poly) -> Poly
    requires p { IsPoly (S.state s.old) p }
    requires class { is_constant (polynomial_at (S.state s.old) p) ≡ false }
    requires room { ARITH_UNITS + POLY_UNITS ≤ (S.state s.old).spare }
    ensures { Gives (S.state s.old) (S.state s.new) result
        (primitive_tail (polynomial_at (S.state s.old) p)) }
{
    let rest = tail(s, p);
    let (_, part) = prim(s, rest);
    give_up(s, rest);
    part
}

// Whether equations are a triangular system.
ghost use Rattle.std.specs.Prelude.{◌≡◌, ◌≤◌, ◌+◌, ◌&&◌, ◌||◌, not, ◌==◌, count_by, map};
ghost use Rattle.std.specs.List.{list_all};
ghost use Rattle.poly_model.specs.Reduction.{class_of, is_constant};
ghost use Rattle.poly_model.specs.declared.limits.TheConstants.{ARITH_UNITS, LEAF_UNITS, POLY_UNITS};
ghost use Rattle.proof_steps.specs.Rules.{has_known_initial, is_settled, is_triangular};
ghost use Rattle.term_store.specs.Changes.{Keeps};
ghost use Rattle.polynomials.specs.Held.{IsPoly, polynomial_at};
ghost use Rattle.workbench.specs.Standing.{AreHeld};

use polynomials::Poly;
use term_store::TermStore;
use workbench::{class_number, is_known};

/// How many equations have the class.
fn count<S: TermStore>(s: &S, eqs: &[Poly], x: u8) -> usize
    requires { AreHeld (S.state s.now) eqs.now }
    ensures { result ≡ count_by (λ p. class_of p == x)
        (map (polynomial_at (S.state s.now)) eqs.now) }
{
    let mut sum = 0;
    let mut rest = eqs;
    while let Some((first, after)) = rest.split_first() {
        if class_number(s, *first) == x {
            sum += 1;
        }
        rest = after;
    }
    sum
}

/// The equation has another class, or its initial is known.
fn serves<S: TermStore>(s: &mut S, nes: &[Poly], p: Poly, x: u8) -> bool
    requires nes { AreHeld (S.state s.old) nes.now }
    requires p { IsPoly (S.state s.old) p }
    requires room { ARITH_UNITS + POLY_UNITS ≤ (S.state s.old).spare }
    ensures value { result ≡ (not (class_of (polynomial_at (S.state s.old) p) == x)
        || has_known_initial (map (polynomial_at (S.state s.old)) nes.now)
        (polynomial_at (S.state s.old) p)) }
    ensures kept { Keeps (S.state s.old) (S.state s.new) }
{
    class_number(s, p) != x || is_known(s, nes, p)
}

/// The initials of the equations that have the class are known.
fn all_known<S: TermStore>(s: &mut S, eqs: &[Poly], nes: &[Poly], x: u8) -> bool
    requires eqs { AreHeld (S.state s.old) eqs.now }
    requires nes { AreHeld (S.state s.old) nes.now }
    requires room { ARITH_UNITS + POLY_UNITS ≤ (S.state s.old).spare }
    ensures value { result ≡ list_all (λ p. not (class_of p == x)
        || has_known_initial (map (polynomial_at (S.state s.old)) nes.now) p)
        (map (polynomial_at (S.state s.old)) eqs.now) }
    ensures kept { Keeps (S.state s.old) (S.state s.new) }
{
    let mut rest = eqs;
    while let Some((first, after)) = rest.split_first() {
        if !serves(s, nes, *first, x) {
            return false;
        }
        rest = after;
    }
    true
}

/// The equation is no constant, and no other has its class.
fn is_single<S: TermStore>(s: &S, eqs: &[Poly], p: Poly) -> bool
    requires eqs { AreHeld (S.state s.now) eqs.now }
    requires p { IsPoly (S.state s.now) p }
    ensures { result ≡ (not (is_constant (polynomial_at (S.state s.now) p))
        && count_by (λ q. class_of q == class_of (polynomial_at (S.state s.now) p))
        (map (polynomial_at (S.state s.now)) eqs.now) == 1) }
{
    let x = class_number(s, p);
    x != 0 && count(s, eqs, x) == 1
}

/// The equation is no constant, and its class is settled: no other equation has it, and its initial
/// is known.
fn is_alone<S: TermStore>(s: &mut S, eqs: &[Poly], nes: &[Poly], p: Poly) -> bool
    requires eqs { AreHeld (S.state s.old) eqs.now }
    requires nes { AreHeld (S.state s.old) nes.now }
    requires p { IsPoly (S.state s.old) p }
    requires room { ARITH_UNITS + POLY_UNITS ≤ (S.state s.old).spare }
    ensures value { result ≡ (not (is_constant (polynomial_at (S.state s.old) p))
        && is_settled (map (polynomial_at (S.state s.old)) eqs.now)
        (map (polynomial_at (S.state s.old)) nes.now)
        (class_of (polynomial_at (S.state s.old) p))) }
    ensures kept { Keeps (S.state s.old) (S.state s.new) }
{
    if !is_single(s, eqs, p) {
        return false;
    }
    let x = class_number(s, p);
    all_known(s, eqs, nes, x)
}

/// The equations are a triangular system: none is a constant, and each class that occurs is
/// settled, by one equation whose initial has a primitive part that is a number other than 0 or one
/// of the conditions.
pub fn is_triangular<S: TermStore>(s: &mut S, eqs: &[Poly], nes: &[Poly]) -> bool
    requires eqs { AreHeld (S.state s.old) eqs.now }
    requires nes { AreHeld (S.state s.old) nes.now }
    requires room { LEAF_UNITS ≤ (S.state s.old).spare }
    ensures value { result ≡ is_triangular (map (polynomial_at (S.state s.old)) eqs.now)
        (map (polynomial_at (S.state s.old)) nes.now) }
    ensures kept { Keeps (S.state s.old) (S.state s.new) }
{
    let mut rest = eqs;
    while let Some((first, after)) = rest.split_first() {
        if !is_alone(s, eqs, nes, *first) {
            return false;
        }
        rest = after;
    }
    true
}

// The equation that reduces a polynomial.
ghost use Rattle.std.specs.Prelude.{◌≡◌, ◌≤◌, ◌<◌, ◌^◌, ◌-◌, ℕ, List, map, get_or, length, IfNone, IfSome};
ghost use Rattle.poly_model.specs.Polynomial.{Polynomial};
ghost use Rattle.proof_steps.specs.Chain.{reducing_class as class_due};
ghost use Rattle.proof_steps.specs.Classes.{HaveOwnClasses};
ghost use Rattle.workbench.specs.Standing.{AllTell, AreFound, held_at};
ghost use Rattle.polynomials.specs.Held.{IsPoly, polynomial_at};
ghost use Rattle.triangular.specs.Reducers.{AreWithin, IsDivisor, reducing_in, first_in};

use polynomials::{Poly, degree};
use term_store::TermStore;
use workbench::Held;

/// The equation that reduces a polynomial, and its number.
#[derive(Clone, Copy, Debug)]
pub struct Divisor {
    pub f: usize,
    pub by: Held,
}

/// The greatest class of an equation whose degree the polynomial reaches, and 0 where there is
/// none.
pub fn reducing_class<S: TermStore>(s: &S, hs: &[Held], p: Poly) -> u8
    requires hs { AreWithin hs.now }
    requires p { IsPoly (S.state s.now) p }
    ensures { result ≡ reducing_in (polynomial_at (S.state s.now) p) hs.now }
{
    let mut greatest = 0;
    let mut rest = hs;
    while let Some((first, after)) = rest.split_first() {
        if first.class > greatest && degree(s, p, first.class - 1) >= first.degree {
            greatest = first.class;
        }
        rest = after;
    }
    greatest
}

/// The number of the first equation of a class, and 0 where there is none.
pub fn first_of_class(hs: &[Held], x: u8) -> usize
    requires { length hs.now < 2 ^ 32 }
    ensures place { result ≡ first_in hs.now x }
    ensures within { result ≤ length hs.now }
{
    let mut rest = hs;
    let mut k = 1;
    while let Some((first, after)) = rest.split_first() {
        if first.class == x {
            return k;
        }
        k += 1;
        rest = after;
    }
    0
}

/// The equation of this number.
pub fn equation(hs: &[Held], f: usize) -> Held
    requires low { 1 ≤ f }
    requires below { f - 1 < length hs.now }
    ensures { result ≡ get_or hs.now (f - 1) result }
{
    hs[f - 1]
}

/// The equation of a system that reduces the polynomial, if one does: that of the greatest class whose degree it reaches.
pub fn divisor_of<S: TermStore>(s: &S, hs: &[Held], p: Poly) -> Option<Divisor>
    requires found { AreFound (S.state s.now) hs.now }
    requires tell { (N : List Polynomial) × AllTell N hs.now (map (held_at (S.state s.now)) hs.now) }
    requires own { HaveOwnClasses (map (held_at (S.state s.now)) hs.now) }
    requires few { length hs.now < 2 ^ 32 }
    requires p { IsPoly (S.state s.now) p }
    ensures none { IfNone result (class_due (map (held_at (S.state s.now)) hs.now)
        (polynomial_at (S.state s.now) p) ≡ 0) }
    ensures some { IfSome result (λ r. IsDivisor (S.state s.now) hs.now
        (polynomial_at (S.state s.now) p) r) }
{
    let x = reducing_class(s, hs, p);
    if x == 0 {
        return None;
    }
    let f = first_of_class(hs, x);
    Some(Divisor {
        f,
        by: equation(hs, f),
    })
}

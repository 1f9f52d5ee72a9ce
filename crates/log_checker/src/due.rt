// What is due of the conclusions at a system.
ghost use Rattle.std.specs.Prelude.{◌≡◌, ◌≤◌, suc, drop, if◌then◌else◌, length, map, max, List, IfNone, IfSome};
ghost use Rattle.poly_model.specs.Polynomial.{Polynomial};
ghost use Rattle.poly_model.specs.Reduction.{class_of, reaches};
ghost use Rattle.proof_steps.specs.Chain.{AllZero, due_of, reducing_class, first_of_class};
ghost use Rattle.proof_steps.specs.Classes.{HaveOwnClasses};
ghost use Rattle.log_checker.specs.Turns.{IsDue, IsFirstLeft};

use crate::node::reaches;
use crate::reads::term_count;
use poly_model::OwnedPoly;

/// The conclusions from some place on are all 0, or the first other than 0 is at a place and left, or it is reduced by the
/// equation of a number, whose greatest variable is at a place.
#[derive(Clone, Copy, Debug)]
pub enum Due {
    AllZero,
    Left(usize),
    Reduce { at: usize, f: usize, var: u8 },
}

/// The greater of a class and that of an equation whose degree the polynomial reaches.
fn greater(f: &OwnedPoly, class: u8, p: &OwnedPoly, least: u8) -> u8
    requires { class ≡ class_of f.now }
    ensures { result ≡ max (if reaches p.now f.now then class_of f.now else 0) least }
{
    if class <= least {
        return least;
    }
    if reaches(p, f, class - 1) {
        class
    } else {
        least
    }
}

/// The greatest class of an equation whose degree the polynomial reaches, and 0 where there is none.
fn reducing_class(eqs: &[OwnedPoly], classes: &[u8], p: &OwnedPoly) -> u8
    requires { classes.now ≡ map class_of eqs.now }
    ensures { result ≡ reducing_class eqs.now p.now }
{
    let mut greatest = 0;
    let mut i = eqs.len();
    while i > 0 {
        i -= 1;
        greatest = greater(&eqs[i], classes[i], p, greatest);
    }
    greatest
}

/// The number of the first equation of a class, and 0 where there is none.
fn first_of_class(classes: &[u8], x: u8) -> usize
    ensures place { (E : List Polynomial) → classes.now ≡ map class_of E
        → result ≡ first_of_class E x }
    ensures within { result ≤ length classes.now }
{
    for i in 0..classes.len() {
        if classes[i] == x {
            return i + 1;
        }
    }
    0
}

/// The place of the first polynomial from a place on that is not 0, if there is one.
fn first_left(cons: &[OwnedPoly], from: usize) -> Option<usize>
    ensures none { IfNone result ((E : List Polynomial)
        → due_of E (suc from) (drop from cons.now) ≡ AllZero) }
    ensures some { IfSome result (λ at. IsFirstLeft cons.now from at) }
{
    let mut at = from;
    while at < cons.len() {
        if term_count(&cons[at]) > 0 {
            return Some(at);
        }
        at += 1;
    }
    None
}

/// What is due of the conclusions from a place on.
pub fn next_due(eqs: &[OwnedPoly], classes: &[u8], cons: &[OwnedPoly], done: usize) -> Due
    requires classes { classes.now ≡ map class_of eqs.now }
    requires own { HaveOwnClasses eqs.now }
    ensures { IsDue eqs.now cons.now done result }
{
    let Some(at) = first_left(cons, done) else {
        return Due::AllZero;
    };
    let class = reducing_class(eqs, classes, &cons[at]);
    if class == 0 {
        return Due::Left(at);
    }
    Due::Reduce {
        at,
        f: first_of_class(classes, class),
        var: class - 1,
    }
}

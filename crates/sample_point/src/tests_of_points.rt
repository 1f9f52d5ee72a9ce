// What is asked of a point.
ghost use Rattle.std.specs.Prelude.{◌≡◌, ◌≤◌, ◌+◌, length, IsTrue};
ghost use Rattle.std.specs.List.{list_all};
ghost use Rattle.poly_model.specs.Standard.{is_bounded};
ghost use Rattle.sample_point.specs.Sampling.{has_value, has_zero, has_other, succeeds, first_other};

use crate::evaluation::value;
use poly_model::OwnedPoly;
use proof_steps::Problem;

fn has_value(point: &[i128], p: &OwnedPoly) -> bool
    requires { IsTrue (list_all is_bounded point.now) }
    ensures { result ≡ has_value point.now p.now }
{
    value(p, point).is_some()
}

fn has_zero(point: &[i128], p: &OwnedPoly) -> bool
    requires { IsTrue (list_all is_bounded point.now) }
    ensures { result ≡ has_zero point.now p.now }
{
    match value(p, point) {
        Some(z) => z == 0,
        None => false,
    }
}

fn has_other(point: &[i128], p: &OwnedPoly) -> bool
    requires { IsTrue (list_all is_bounded point.now) }
    ensures { result ≡ has_other point.now p.now }
{
    match value(p, point) {
        Some(z) => z != 0,
        None => false,
    }
}

/// All of these are 0 at the point.
pub fn all_zero(point: &[i128], ps: &[OwnedPoly]) -> bool
    requires { IsTrue (list_all is_bounded point.now) }
    ensures { result ≡ list_all (has_zero point.now) ps.now }
{
    ps.iter().all(|p| has_zero(point, p))
}

/// None of these is 0 at the point, and each has a value in bounds.
pub fn all_other(point: &[i128], ps: &[OwnedPoly]) -> bool
    requires { IsTrue (list_all is_bounded point.now) }
    ensures { result ≡ list_all (has_other point.now) ps.now }
{
    ps.iter().all(|p| has_other(point, p))
}

/// All of these have values in bounds at the point.
pub fn all_valued(point: &[i128], ps: &[OwnedPoly]) -> bool
    requires { IsTrue (list_all is_bounded point.now) }
    ensures { result ≡ list_all (has_value point.now) ps.now }
{
    ps.iter().all(|p| has_value(point, p))
}

/// The hypotheses are 0 at the point, no condition is, and the conclusions have values.
pub fn succeeds(problem: &Problem, nes: &[OwnedPoly], point: &[i128]) -> bool
    requires { IsTrue (list_all is_bounded point.now) }
    ensures { result ≡ succeeds problem.now nes.now point.now }
{
    all_zero(point, problem.hyps.as_slice())
        && all_other(point, nes)
        && all_valued(point, problem.cons.as_slice())
}

/// The number of the first of these conclusions that is not 0. They are numbered from k on.
#[tactic(auto, unfolding(crate::specs::Sampling::first_other))]
pub fn first_other(point: &[i128], k: u8, cons: &[OwnedPoly]) -> Option<u8>
    requires point { IsTrue (list_all is_bounded point.now) }
    requires few { k + length cons.now ≤ u8.MAX }
    ensures { result ≡ first_other point.now k cons.now }
{
    let mut number = k;
    let mut rest = cons;
    while let [c, after @ ..] = rest {
        if has_other(point, c) {
            return Some(number);
        }
        number += 1;
        rest = after;
    }
    None
}

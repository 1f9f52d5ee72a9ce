// Triangular systems.
ghost use Rattle.std.specs.Prelude.{◌≡◌, ◌<◌, ◌==◌, ◌&&◌, not, [], IfOk, count_by, get_or, length, map};
ghost use Rattle.poly_model.specs.Reduction.{class_of, is_constant};
ghost use Rattle.proof_steps.specs.Rules.{is_settled, is_triangular};

use crate::node::is_known;
use poly_model::OwnedPoly;
use std::alloc::{AllocError, Global};
use term_store::TermStore;

/// How many of these classes are this one.
fn count(classes: &[u8], x: u8) -> usize
    ensures { result ≡ count_by (λ c. c == x) classes.now }
{
    classes.iter().filter(|c| **c == x).count()
}

/// The equation at a place is no constant, and its class is settled: no other has it, and its initial is known.
fn stands_alone<S: TermStore>(
    alloc: Global,
    s: &mut S,
    eqs: &[OwnedPoly],
    classes: &[u8],
    nes: &[OwnedPoly],
    at: usize,
) -> Result<bool, AllocError>
    requires classes { classes.now ≡ map class_of eqs.now }
    requires at { at < length eqs.now }
    ensures { IfOk result (λ yes. yes ≡ (not (is_constant (get_or eqs.now at []))
        && is_settled eqs.now nes.now (class_of (get_or eqs.now at [])))) }
{
    let x = classes[at];
    if x == 0 || count(classes, x) != 1 {
        return Ok(false);
    }
    is_known(alloc, s, nes, &eqs[at])
}

/// No equation is a constant, and each class that occurs is settled.
pub fn is_triangular<S: TermStore>(
    alloc: Global,
    s: &mut S,
    eqs: &[OwnedPoly],
    classes: &[u8],
    nes: &[OwnedPoly],
) -> Result<bool, AllocError>
    requires { classes.now ≡ map class_of eqs.now }
    ensures { IfOk result (λ yes. yes ≡ is_triangular eqs.now nes.now) }
{
    for i in 0..eqs.len() {
        if !stands_alone(alloc, s, eqs, classes, nes, i)? {
            return Ok(false);
        }
    }
    Ok(true)
}

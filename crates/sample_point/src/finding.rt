// What is found of a proof.
ghost use Rattle.std.specs.Prelude.{◌≡◌, ◌<◌, length, IfOk};
ghost use Rattle.sample_point.specs.Sampling.{found_of, is_system};

use crate::found::Found;
use crate::tests_of_points::first_other;
use crate::tries::{MOST_TRIES, first_point};
use crate::values::Values;
use poly_model::Row;
use proof_log::Proof;
use proof_steps::Outcome;
use std::alloc::{AllocError, Global};
use verdicts::generic_leaf;

fn is_system(outcome: &Outcome) -> bool
    ensures { result ≡ is_system outcome.now }
{
    matches!(outcome, Outcome::System { .. })
}

/// A point on the generic branch of a proof, and what it shows. Any tree is taken, and any verdict: of a valid tree the laws
/// say what is found.
///
/// Where it finds nothing, that says nothing of the statement: the generic leaf may be no system, an equation there may have
/// a degree above 1, or each of the points that are tried may be out of bounds or on a condition.
pub fn find(alloc: Global, proof: &Proof) -> Result<Found, AllocError>
    requires { length proof.now.problem.cons < u8.MAX }
    ensures { IfOk result (λ f. f ≡ found_of proof.now.problem proof.now.tree.pieces) }
{
    let Some(leaf) = generic_leaf(proof.tree.pieces.as_slice()) else {
        return Ok(Found::Nothing);
    };
    if !is_system(&leaf.outcome) {
        return Ok(Found::Nothing);
    }
    let Some(values) = first_point(alloc, &proof.problem, leaf, 1, MOST_TRIES)? else {
        return Ok(Found::Nothing);
    };
    let other = first_other(&values.numbers, 1, proof.problem.cons.as_slice());
    let Values { numbers, .. } = values;
    let point = Row::from_vec(numbers);
    Ok(match other {
        None => Found::Sample(point),
        Some(k) => Found::Refuted { k, point },
    })
}

// Pseudo-division: elementary reductions until the degree is below that of the divisor.
ghost use Rattle.std.specs.Prelude.{◌≡◌, ◌≤◌, ◌<◌, ◌+◌, ◌-◌, ℤ, Some, None, Result, Ok, Err, IfOk, IfErr, OnErr, IsTrue, suc, length, unsigned_abs, false};
ghost use Rattle.poly_model.specs.Polynomial.{Polynomial, IsDescending};
ghost use Rattle.poly_model.specs.Reduction.{class_of, reaches};
ghost use Rattle.poly_model.specs.Bounded.{bounded_reduction};
ghost use Rattle.poly_model.specs.Division.{division_of, IsDivision};
ghost use Rattle.poly_model.specs.declared.limits.TheConstants.{MOST_VARIABLES, ROW_UNITS, STEP_UNITS, POLY_UNITS};
ghost use Rattle.term_store.specs.Changes.{Keeps, given_up};
ghost use Rattle.polynomials.specs.Held.{IsPoly, Gives, polynomial_at, slot_of};
ghost use Rattle.pseudo_div.specs.Steps.{AreSteps, Stops, met_by, cost_of, rest_after};
ghost use Rattle.pseudo_div.specs.Advances.{Advances};

use crate::step::red_step;
use poly_model::{OwnedPoly, Reason, Row};
use polynomials::{Poly, copy, copy_out, degree};
use std::alloc::{AllocError, Global};
use term_store::TermStore;

/// A division so far: its steps, each with its multiplier and its result, the rest, why it stopped, and what is left of
/// the fuel. Where it did not stop, the degree of the rest is below that of the divisor.
#[derive(Debug, Drop)]
pub struct Down {
    pub steps: Row<(i128, OwnedPoly)>,
    pub rest: Poly,
    pub stop: Option<Reason>,
    pub fuel: u32,
}

/// One step more: why it stops, or its multiplier and result, the result as the new rest, and what is left of the fuel.
#[derive(Debug, Drop)]
pub enum Advance {
    Stopped(Reason),
    Stepped {
        multiplier: i128,
        result: OwnedPoly,
        rest: Poly,
        fuel: u32,
    },
}

/// One elementary reduction of a rest by f, paid from the fuel. The rest is given up where the step is made, and stays where
/// it stops or memory is refused.
pub fn step_on<S: TermStore>(
    alloc: Global,
    s: &mut S,
    rest: Poly,
    f: Poly,
    var: u8,
    fuel: u32,
) -> Result<Advance, AllocError>
    requires rest { IsPoly (S.state s.old) rest }
    requires f { IsPoly (S.state s.old) f }
    requires class { class_of (polynomial_at (S.state s.old) f) ≡ suc var }
    requires reaches { IsTrue (reaches (polynomial_at (S.state s.old) rest)
        (polynomial_at (S.state s.old) f)) }
    requires room { STEP_UNITS ≤ (S.state s.old).spare }
    ensures ok { IfOk result (λ a. Advances (S.state s.old) (S.state s.new) rest fuel
        (bounded_reduction (polynomial_at (S.state s.old) rest)
        (polynomial_at (S.state s.old) f)) a) }
    ensures refused { OnErr result (Keeps (S.state s.old) (S.state s.new)) }
{
    match red_step(s, rest, f, var) {
        Err(limit) => Ok(Advance::Stopped(limit.reason())),
        Ok((multiplier, next)) => {
            let terms = s.len(next.slot());
            if fuel as usize <= terms {
                s.free(next.slot());
                return Ok(Advance::Stopped(Reason::Fuel));
            }
            match copy_out(alloc, s, next) {
                Err(refused) => {
                    s.free(next.slot());
                    Err(refused)
                }
                Ok(result) => {
                    s.free(rest.slot());
                    Ok(Advance::Stepped {
                        multiplier,
                        result,
                        rest: next,
                        fuel: fuel - 1 - terms as u32,
                    })
                }
            }
        }
    }
}

/// Divides g by f in the variable at the place `var`, the greatest of f, by elementary reductions until the degree is
/// below that of f, the next step meets a limit, or its cost passes the fuel that is left: a step costs 1 and the terms of
/// its result. The rest is a new list. With the initial I of f and s steps, `I^s*g = q*f + m*r` for the rest r.
pub fn prem<S: TermStore>(
    alloc: Global,
    s: &mut S,
    g: Poly,
    f: Poly,
    var: u8,
    fuel: u32,
) -> Result<Down, AllocError>
    requires g { IsPoly (S.state s.old) g }
    requires f { IsPoly (S.state s.old) f }
    requires class { class_of (polynomial_at (S.state s.old) f) ≡ suc var }
    requires room { ROW_UNITS ≤ (S.state s.old).spare }
    ensures rest { IfOk result (λ d. Gives (S.state s.old) (S.state s.new) d.rest
        (rest_after (polynomial_at (S.state s.old) g) (polynomial_at (S.state s.old) f) d.steps)) }
    ensures identity { IfOk result (λ d. IsDivision MOST_VARIABLES (polynomial_at (S.state s.old) g)
        (polynomial_at (S.state s.old) f)
        (division_of (polynomial_at (S.state s.old) g) (polynomial_at (S.state s.old) f)
        (length d.steps))) }
    ensures steps { IfOk result (λ d. AreSteps (polynomial_at (S.state s.old) f) d.steps
        (polynomial_at (S.state s.old) g) fuel
        (rest_after (polynomial_at (S.state s.old) g)
        (polynomial_at (S.state s.old) f) d.steps) d.fuel) }
    ensures stop { IfOk result (λ d. Stops
        (rest_after (polynomial_at (S.state s.old) g) (polynomial_at (S.state s.old) f) d.steps)
        (polynomial_at (S.state s.old) f) d.fuel d.stop) }
    ensures refused { OnErr result (Keeps (S.state s.old) (S.state s.new)) }
{
    let low = degree(s, f, var);
    let mut rest = copy(s, g);
    let mut steps = Vec::new(alloc);
    let mut left = fuel;
    while degree(s, rest, var) >= low {
        match step_on(alloc, s, rest, f, var, left) {
            Err(refused) => {
                s.free(rest.slot());
                return Err(refused);
            }
            Ok(Advance::Stopped(reason)) => {
                return Ok(Down {
                    steps: Row::from_vec(steps),
                    rest,
                    stop: Some(reason),
                    fuel: left,
                });
            }
            Ok(
                Advance::Stepped {
                    multiplier,
                    result,
                    rest: next,
                    fuel: paid,
                },
            ) => {
                if let Err(refused) = steps.push((multiplier, result)) {
                    s.free(next.slot());
                    return Err(refused.into());
                }
                rest = next;
                left = paid;
            }
        }
    }
    Ok(Down {
        steps: Row::from_vec(steps),
        rest,
        stop: None,
        fuel: left,
    })
}

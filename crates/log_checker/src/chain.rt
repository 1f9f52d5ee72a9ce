// The lines of the chain of a system.
ghost use Rattle.std.specs.Prelude.{◌≡◌, ◌<◌, ◌+◌, ◌-◌, ◌∷◌, [], ◌==◌, ◌&&◌, suc, drop, length, nat_lt, if◌then◌else◌, IfOk, Ok, Err, Some, None};
ghost use Rattle.poly_model.specs.declared.limits.Reason.TheVariants as reason;
ghost use Rattle.proof_steps.specs.Chain.{chain_reason, is_step};
ghost use Rattle.proof_steps.specs.Numbers.{item};
ghost use Rattle.proof_steps.specs.Reasons.{same_reason};
ghost use Rattle.log_checker.specs.Fitting.{by_chain, chain_row, proved_row, remainder_row, unreduced_row, Chaining};
ghost use Rattle.log_checker.specs.Turns.{IsDue, IsTurn, Reduces, conclusion, stop_in};
ghost use Rattle.log_checker.specs.Views.{eqs_due, nes_due, chain_work, inside_views};

use crate::arith::{reduces_to, reduction};
use crate::due::{Due, next_due};
use crate::ending::Ending;
use crate::open::is_met;
use crate::piece::{Inside, System};
use crate::reads::term_count;
use poly_model::{OwnedPoly, Reason, Row};
use proof_steps::ChainStep;
use std::alloc::{AllocError, Global};
use term_store::TermStore;

/// The reduction of the conclusion at a place by the equation of a number: what it gives, or why it is stopped.
#[derive(Debug, Drop)]
pub struct Turn {
    pub at: usize,
    pub f: usize,
    pub result: Result<(i128, OwnedPoly), Reason>,
}

/// The fuel is less than a reduction costs that gives the polynomial.
fn is_short(fuel: u32, r: &OwnedPoly) -> bool
    ensures { result ≡ nat_lt fuel (1 + length r.now) }
{
    (fuel as usize) < 1 + term_count(r)
}

/// The result, or want of fuel for it.
fn with_fuel(found: (i128, OwnedPoly), fuel: u32) -> Result<(i128, OwnedPoly), Reason>
    ensures { result ≡ (if nat_lt fuel (1 + length found.1) then Err reason.Fuel else Ok found) }
{
    if is_short(fuel, &found.1) {
        Err(Reason::Fuel)
    } else {
        Ok(found)
    }
}

/// What is due at a system.
fn system_due(system: &System) -> Due
    ensures { IsDue system.now.lists.eqs system.now.cons system.now.done result }
{
    let eqs = system.lists.eqs.as_slice();
    next_due(eqs, &system.classes, system.cons.as_slice(), system.done)
}

/// The reduction that is due, if one is.
fn next_turn<S: TermStore>(
    alloc: Global,
    s: &mut S,
    system: &System,
) -> Result<Option<Turn>, AllocError>
    ensures { IfOk result (λ t. IsTurn system.now.lists.eqs system.now.cons system.now.done
        system.now.fuel t) }
{
    match system_due(system) {
        Due::AllZero => Ok(None),
        Due::Left(_) => Ok(None),
        Due::Reduce { at, f, var } => {
            let p = &system.cons.as_slice()[at];
            let q = &system.lists.eqs.as_slice()[f - 1];
            match reduction(alloc, s, p, q, var)? {
                Err(limit) => Ok(Some(Turn {
                    at,
                    f,
                    result: Err(limit.reason()),
                })),
                Ok(found) => Ok(Some(Turn {
                    at,
                    f,
                    result: with_fuel(found, system.fuel),
                })),
            }
        }
    }
}

/// The system with a polynomial in place of the conclusion at a place.
#[tactic(auto, using(crate::proofs::Chains::drop_set))]
fn advanced(system: System, at: usize, r: OwnedPoly) -> System
    requires { at < length system.cons }
    ensures lists { result.lists ≡ system.lists }
    ensures work { chain_work result ≡ Chaining system.lists.eqs (suc at)
        (r ∷ drop (suc at) system.cons) (system.fuel - (1 + length r)) }
{
    let System {
        lists,
        classes,
        cons,
        fuel,
        ..
    } = system;
    let cost = 1 + term_count(&r) as u32;
    let mut cons = cons.into_vec();
    cons[at] = r;
    System {
        lists,
        classes,
        cons: Row::from_vec(cons),
        done: at,
        fuel: fuel.saturating_sub(cost),
    }
}

/// The number counts from 1 and is that of a place.
fn is_number(k: u8, at: usize) -> bool
    ensures { result ≡ (k == suc at) }
{
    k > 0 && k as usize - 1 == at
}

/// The step is of the conclusion at a place, and of the equation of a number.
fn has_numbers(told: &ChainStep, at: usize, f: usize) -> bool
    ensures { result ≡ (told.now.k == suc at && told.now.f == f) }
{
    is_number(told.k, at) && told.f as usize == f
}

/// The step tells the reduction of the conclusion at a place by the equation of a number, and there is fuel for it.
fn step_fits<S: TermStore>(
    s: &mut S,
    system: &System,
    at: usize,
    f: usize,
    var: u8,
    told: &ChainStep,
) -> Result<bool, AllocError>
    requires at { at < length system.now.cons }
    requires reduces { Reduces system.now.lists.eqs (conclusion system.now.cons at) f var }
    ensures { IfOk result (λ fits. fits
        ≡ (is_step system.now.lists.eqs (suc at) f (conclusion system.now.cons at) told.now
        && same_reason (chain_reason (conclusion system.now.cons at)
        (item system.now.lists.eqs f) system.now.fuel) None)) }
{
    if !has_numbers(told, at, f) {
        return Ok(false);
    }
    if is_short(system.fuel, &told.r) {
        return Ok(false);
    }
    let p = &system.cons.as_slice()[at];
    let q = &system.lists.eqs.as_slice()[f - 1];
    reduces_to(s, p, q, var, told.m, &told.r)
}

/// Where the piece stands behind a line `step`, if it fits.
pub fn step_row<S: TermStore>(
    s: &mut S,
    system: System,
    told: ChainStep,
) -> Result<Option<Inside>, AllocError>
    requires eqs { eqs_due system.lists ≡ [] }
    requires nes { nes_due system.lists ≡ [] }
    ensures { IfOk result (λ o. inside_views o
        ≡ by_chain (chain_work system) (λ E fuel due. chain_row E fuel told due)) }
{
    let Due::Reduce { at, f, var } = system_due(&system) else {
        return Ok(None);
    };
    if !step_fits(s, &system, at, f, var, &told)? {
        return Ok(None);
    }
    let ChainStep { r, .. } = told;
    Ok(Some(Inside::Solving(advanced(system, at, r))))
}

/// Where the piece stands behind a line `proved`, if it fits.
pub fn proved_row(system: &System) -> Option<Inside>
    ensures { inside_views result
        ≡ by_chain (chain_work system.now) (λ E fuel due. proved_row due) }
{
    match system_due(system) {
        Due::AllZero => Some(Inside::Ended(Ending::Proves)),
        Due::Left(_) => None,
        Due::Reduce { .. } => None,
    }
}

/// Where the piece stands behind a line `remainder`, if it fits.
pub fn remainder_row(alloc: Global, system: &System, k: u8) -> Result<Option<Inside>, AllocError>
    ensures { IfOk result (λ o. inside_views o
        ≡ by_chain (chain_work system.now) (λ E fuel due. remainder_row k due)) }
{
    match system_due(system) {
        Due::AllZero => Ok(None),
        Due::Left(at) => {
            if !is_number(k, at) {
                return Ok(None);
            }
            let r = system.cons.as_slice()[at].copy(alloc)?;
            Ok(Some(Inside::Ended(Ending::Remains { k: k as usize, r })))
        }
        Due::Reduce { .. } => Ok(None),
    }
}

/// The line tells what stops the reduction.
fn is_stop(k: u8, f: u16, told: Reason, turn: &Turn) -> bool
    ensures { result ≡ ((k == suc turn.now.at && f == turn.now.f)
        && same_reason (stop_in turn.now.result) (Some told)) }
{
    let met = match &turn.result {
        Ok(_) => None,
        Err(met) => Some(*met),
    };
    is_number(k, turn.at) && f as usize == turn.f && is_met(met, told)
}

/// Where the piece stands behind a line `unreduced`, if it fits.
pub fn unreduced_row<S: TermStore>(
    alloc: Global,
    s: &mut S,
    system: &System,
    k: u8,
    reason: Reason,
    f: u16,
) -> Result<Option<Inside>, AllocError>
    ensures { IfOk result (λ o. inside_views o
        ≡ by_chain (chain_work system.now) (λ E fuel due. unreduced_row E fuel k reason f due)) }
{
    match next_turn(alloc, s, system)? {
        None => Ok(None),
        Some(turn) => {
            if is_stop(k, f, reason, &turn) {
                Ok(Some(Inside::Ended(Ending::Stops(reason))))
            } else {
                Ok(None)
            }
        }
    }
}

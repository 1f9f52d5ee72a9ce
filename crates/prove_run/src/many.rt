ghost use Rattle.std.specs.Prelude.{◌≡◌, ◌≤◌, All, IfOk, IsTrue, length};
ghost use Rattle.gcl_names.specs.Sound.{IsSound};
ghost use Rattle.gcl_reader.specs.Grammar.{Gives};
ghost use Rattle.poly_model.specs.Names.{are_variables};
ghost use Rattle.poly_model.specs.declared.limits.TheConstants.{MOST_FUEL};
ghost use Rattle.proof_log.specs.Accepted.{IsAccepted};
ghost use Rattle.proof_log.specs.Headings.{heading_of};
ghost use Rattle.proof_log.specs.declared.limits.TheConstants.{MOST_PROOFS};
ghost use Rattle.proof_steps.specs.declared.version.TheConstants.{VERSION};
ghost use Rattle.proof_steps.specs.Rules.{size_of};
ghost use Rattle.proof_steps.specs.Stated.{IsStated};
ghost use Rattle.proof_steps.specs.Trees.{root_of};
ghost use Rattle.prove_run.specs.Logs.{log_of, log_of_program, newest, proof_of};
ghost use Rattle.prove_run.specs.Whole.{IsPosed, IsWhole};
ghost use Rattle.prove_run.specs.declared.many.TheConstants.{MOST_WORKERS};

use crate::proving::{judged, root_node};
use crate::working::grow_together;
use algebraize::problems;
use branch_pool::Gate;
use gcl_names::Program;
use gcl_reader::GclFault;
use poly_model::{MOST_FUEL, Row};
use proof_log::{Log, Proof};
use proof_steps::{Problem, VERSION};
use std::alloc::{AllocError, Global};
use std::sync::Wait;
use std::thread::Threads;

/// The most workers that do a tree together.
pub const MOST_WORKERS: u32 = 16;

/// As `prove` of one thread, by workers.
fn prove<G: Gate + Sync, R: Threads + Wait + Sync>(
    rt: &R,
    alloc: Global,
    problem: Problem,
    fuel: u32,
    workers: u32,
    gate: &G,
) -> Result<Proof, AllocError>
    requires stated { IsStated problem }
    requires pays { size_of (root_of problem fuel) ≤ fuel }
    requires most { fuel ≤ MOST_FUEL }
    requires workers { 1 ≤ workers }
    ensures proof { IfOk result (λ p. p ≡ proof_of VERSION fuel problem) }
    ensures vars { IfOk result (λ p. IsTrue (are_variables p.problem.vars)) }
{
    let root = root_node(alloc, &problem, fuel)?;
    let pieces = grow_together(rt, alloc, root, problem.cons.as_slice(), workers, gate)?;
    judged(alloc, problem, pieces)
}

/// The log of the problems, one after the other: each has an equal share of the fuel.
fn prove_all<G: Gate + Sync, R: Threads + Wait + Sync>(
    rt: &R,
    alloc: Global,
    problems: Vec<Problem>,
    workers: u32,
    gate: &G,
) -> Result<Vec<Proof>, AllocError>
    requires few { length problems.items ≤ MOST_PROOFS }
    requires stated { All IsStated problems.items }
    requires workers { 1 ≤ workers }
    ensures log { IfOk result (λ v. v.items ≡ log_of newest problems.items) }
    ensures posed { IfOk result (λ v. All (λ p. IsPosed p.problem) v.items) }
{
    let mut proofs = Vec::new(alloc);
    if problems.is_empty() {
        return Ok(proofs);
    }
    let fuel = MOST_FUEL / problems.len() as u32;
    for problem in problems {
        proofs.push(prove(rt, alloc, problem, fuel, workers, gate)?)?;
    }
    Ok(proofs)
}

/// The log of a sound program, by workers that do each tree together. The proves are done one after the other.
///
/// It is the log that `prove_one` gives, whatever the number of workers, the gate and the schedule, and is refused as there.
/// For each prove the gate is passed once after each take of a node, by the worker that took it.
pub fn prove_many<G: Gate + Sync, R: Threads + Wait + Sync>(
    rt: &R,
    alloc: Global,
    program: &Program,
    workers: u32,
    gate: &G,
) -> Result<Log, GclFault>
    requires sound { IsSound program.now }
    requires workers { (1 ≤ workers) × (workers ≤ MOST_WORKERS) }
    ensures log { Gives (λ log. log.proofs) result (log_of_program program.now.acts) }
    ensures heading { IfOk result (λ log. heading_of log ≡ newest) }
    ensures accepted { IfOk result (λ log. IsAccepted newest log.proofs) }
    ensures whole { IfOk result (λ log. IsWhole newest log.proofs) }
{
    let proofs = prove_all(rt, alloc, problems(alloc, program)?, workers, gate)?;
    Ok(Log {
        version: VERSION,
        fuel: MOST_FUEL,
        proofs: Row::from_vec(proofs),
    })
}

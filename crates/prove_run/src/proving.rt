ghost use Rattle.std.specs.Prelude.{◌≡◌, ◌≤◌, All, IfOk, IsTrue, length};
ghost use Rattle.gcl_names.specs.Sound.{IsSound};
ghost use Rattle.gcl_reader.specs.Grammar.{Gives};
ghost use Rattle.poly_model.specs.Names.{are_variables};
ghost use Rattle.poly_model.specs.declared.limits.TheConstants.{EXPAND_UNITS, MOST_FUEL};
ghost use Rattle.proof_log.specs.Accepted.{IsAccepted};
ghost use Rattle.proof_log.specs.Headings.{heading_of};
ghost use Rattle.proof_log.specs.declared.limits.TheConstants.{MOST_PROOFS};
ghost use Rattle.proof_steps.specs.declared.version.TheConstants.{VERSION};
ghost use Rattle.proof_steps.specs.Rules.{size_of};
ghost use Rattle.proof_steps.specs.Stated.{IsStated};
ghost use Rattle.proof_steps.specs.Trees.{root_of};
ghost use Rattle.term_store.specs.Changes.{Keeps};
ghost use Rattle.prove_run.specs.Logs.{log_of, log_of_program, newest, proof_of, proof_with};
ghost use Rattle.prove_run.specs.Whole.{IsPosed, IsWhole};

use crate::growing::grow;
use algebraize::problems;
use gcl_names::Program;
use gcl_reader::GclFault;
use poly_model::{EXPAND_UNITS, MOST_FUEL, OwnedPoly, Row};
use proof_log::{Log, Proof};
use proof_steps::{Node, Path, Piece, Problem, Tree, VERSION};
use std::alloc::{AllocError, Global};
use term_region::TermRegion;
use term_store::TermStore;
use verdicts::judge;

fn copies(alloc: Global, polynomials: &[OwnedPoly]) -> Result<Vec<OwnedPoly>, AllocError>
    ensures { IfOk result (λ v. v.items ≡ polynomials.now) }
{
    let mut copies = Vec::new(alloc);
    for p in polynomials {
        copies.push(p.copy(alloc)?)?;
    }
    Ok(copies)
}

/// The node that the tree of the problem begins with.
pub fn root_node(alloc: Global, problem: &Problem, fuel: u32) -> Result<Node, AllocError>
    ensures { IfOk result (λ root. root ≡ root_of problem.now fuel) }
{
    Ok(Node {
        path: Path::root(),
        eqs: Row::from_vec(copies(alloc, problem.hyps.as_slice())?),
        nes: Row::from_vec(Vec::new(alloc)),
        fuel,
    })
}

/// The problem with the tree of these pieces, and the verdict of that.
pub fn judged(alloc: Global, problem: Problem, pieces: Vec<Piece>) -> Result<Proof, AllocError>
    ensures proof { IfOk result (λ p. p ≡ proof_with problem pieces.items) }
    ensures vars { IfOk result (λ p. IsTrue (are_variables p.problem.vars)) }
{
    let tree = Tree {
        pieces: Row::from_vec(pieces),
    };
    let verdict = judge(alloc, &tree)?;
    Ok(Proof {
        problem,
        tree,
        verdict,
    })
}

/// The problem with the tree that the order of work gives, with so much fuel, and the verdict of that.
fn prove<S: TermStore>(
    alloc: Global,
    s: &mut S,
    problem: Problem,
    fuel: u32,
) -> Result<Proof, AllocError>
    requires stated { IsStated problem }
    requires pays { size_of (root_of problem fuel) ≤ fuel }
    requires most { fuel ≤ MOST_FUEL }
    requires room { EXPAND_UNITS ≤ (S.state s.old).spare }
    ensures proof { IfOk result (λ p. p ≡ proof_of VERSION fuel problem) }
    ensures vars { IfOk result (λ p. IsTrue (are_variables p.problem.vars)) }
    ensures kept { Keeps (S.state s.old) (S.state s.new) }
{
    let root = root_node(alloc, &problem, fuel)?;
    let pieces = grow(alloc, s, root, problem.cons.as_slice())?;
    judged(alloc, problem, pieces)
}

/// The log of the problems: each has an equal share of the fuel, and all have one region.
fn prove_all(alloc: Global, problems: Vec<Problem>) -> Result<Vec<Proof>, AllocError>
    requires few { length problems.items ≤ MOST_PROOFS }
    requires stated { All IsStated problems.items }
    ensures log { IfOk result (λ v. v.items ≡ log_of newest problems.items) }
    ensures posed { IfOk result (λ v. All (λ p. IsPosed p.problem) v.items) }
{
    let mut proofs = Vec::new(alloc);
    if problems.is_empty() {
        return Ok(proofs);
    }
    let fuel = MOST_FUEL / problems.len() as u32;
    let mut store = TermRegion::open(alloc, EXPAND_UNITS)?;
    for problem in problems {
        proofs.push(prove(alloc, &mut store, problem, fuel)?)?;
    }
    Ok(proofs)
}

/// The log of a sound program, by one thread.
///
/// It is refused where the points before a prove want more than `MOST_VARIABLES` variables, and only there. The log is
/// accepted, each of its lines can be written, and its text has at most `MOST_LOG_BYTES`.
pub fn prove_one(alloc: Global, program: &Program) -> Result<Log, GclFault>
    requires { IsSound program.now }
    ensures log { Gives (λ log. log.proofs) result (log_of_program program.now.acts) }
    ensures heading { IfOk result (λ log. heading_of log ≡ newest) }
    ensures accepted { IfOk result (λ log. IsAccepted newest log.proofs) }
    ensures whole { IfOk result (λ log. IsWhole newest log.proofs) }
{
    let proofs = prove_all(alloc, problems(alloc, program)?)?;
    Ok(Log {
        version: VERSION,
        fuel: MOST_FUEL,
        proofs: Row::from_vec(proofs),
    })
}

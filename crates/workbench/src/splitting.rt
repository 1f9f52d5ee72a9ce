// The rule that parts a node, and its children.
ghost use Rattle.std.specs.Prelude.{◌≡◌, ◌≤◌, ◌<◌, ◌+◌, ◌++◌, [], ◌∷◌, map, set, true, false, IfOk, length};
ghost use Rattle.proof_steps.specs.Rules.{is_valid, child, size_of};
ghost use Rattle.proof_steps.specs.declared.step.Attempt.TheVariants as attempt;
ghost use Rattle.term_store.specs.Changes.{Keeps};
ghost use Rattle.polynomials.specs.Held.{IsPoly, polynomial_at};
ghost use Rattle.workbench.specs.Standing.{AllTell, AreFound, AreHeld, Stands, beneath, held_at, node_at};
ghost use Rattle.workbench.specs.Splitting.{Parts, PartedBy, Shares};
ghost use Rattle.poly_model.specs.declared.limits.TheConstants.{EXPAND_UNITS, MOST_FUEL, MOST_LETTERS, MOST_TERMS};

use crate::bench::{Bench, Held};
use crate::parts::{give_up, primitive_initial, primitive_tail, term_count};
use poly_model::{MOST_LETTERS, OwnedPoly, Row};
use polynomials::{Poly, copy_out};
use proof_steps::{Node, Reason};
use std::alloc::{AllocError, Global};
use term_store::TermStore;

/// What a split makes of a node.
#[derive(Debug, Drop)]
pub enum Parting {
    Parted {
        initial: OwnedPoly,
        plus: Node,
        minus: Node,
    },
    Stopped(Reason),
}

/// The fuels of two children.
#[derive(Clone, Copy, Debug)]
pub struct Fuels {
    pub plus: u32,
    pub minus: u32,
}

/// Copies of the equations.
pub fn copy_equations<S: TermStore>(
    alloc: Global,
    s: &S,
    hs: &[Held],
) -> Result<Vec<OwnedPoly>, AllocError>
    requires { AreFound (S.state s.now) hs.now }
    ensures { IfOk result (λ v. v.items ≡ map (held_at (S.state s.now)) hs.now) }
{
    let mut copies = Vec::new(alloc);
    let mut rest = hs;
    while let Some((first, after)) = rest.split_first() {
        copies.push(copy_out(alloc, s, first.poly)?)?;
        rest = after;
    }
    Ok(copies)
}

/// Copies of the conditions.
pub fn copy_conditions<S: TermStore>(
    alloc: Global,
    s: &S,
    ps: &[Poly],
) -> Result<Vec<OwnedPoly>, AllocError>
    requires { AreHeld (S.state s.now) ps.now }
    ensures { IfOk result (λ v. v.items ≡ map (polynomial_at (S.state s.now)) ps.now) }
{
    let mut copies = Vec::new(alloc);
    let mut rest = ps;
    while let Some((first, after)) = rest.split_first() {
        copies.push(copy_out(alloc, s, *first)?)?;
        rest = after;
    }
    Ok(copies)
}

/// How the fuel is shared; None where it does not serve for both children.
fn share(fuel: u32, size: u32, gain: u32, minus_size: u32) -> Option<Fuels>
    requires size { size ≤ MOST_FUEL }
    requires gain { gain ≤ MOST_TERMS }
    ensures { Shares result fuel size gain minus_size }
{
    let left = fuel.saturating_sub(1 + gain);
    let minus = if left / 8 < minus_size {
        minus_size
    } else {
        left / 8
    };
    let plus = left.saturating_sub(minus);
    if plus < size + (1 + gain) {
        return None;
    }
    Some(Fuels { plus, minus })
}

/// The child with the initial as a condition.
fn plus_child<S: TermStore>(
    alloc: Global,
    s: &S,
    bench: &Bench,
    j: Poly,
    fuel: u32,
) -> Result<Node, AllocError>
    requires eqs { AreFound (S.state s.now) bench.now.eqs.items }
    requires nes { AreHeld (S.state s.now) bench.now.nes.items }
    requires j { IsPoly (S.state s.now) j }
    requires letters { length bench.now.path < MOST_LETTERS }
    ensures { IfOk result (λ m. m ≡ child (node_at (S.state s.now) bench.now) true
        (node_at (S.state s.now) bench.now).eqs
        ((node_at (S.state s.now) bench.now).nes ++ polynomial_at (S.state s.now) j ∷ []) fuel) }
{
    let eqs = copy_equations(alloc, s, &bench.eqs)?;
    let mut nes = copy_conditions(alloc, s, &bench.nes)?;
    nes.push(copy_out(alloc, s, j)?)?;
    Ok(Node {
        path: bench.path.child(true),
        eqs: Row::from_vec(eqs),
        nes: Row::from_vec(nes),
        fuel,
    })
}

/// The child with the initial as an equation, and the tail for the equation.
fn minus_child<S: TermStore>(
    alloc: Global,
    s: &S,
    bench: &Bench,
    at: usize,
    j: Poly,
    r: Poly,
    fuel: u32,
) -> Result<Node, AllocError>
    requires eqs { AreFound (S.state s.now) bench.now.eqs.items }
    requires nes { AreHeld (S.state s.now) bench.now.nes.items }
    requires j { IsPoly (S.state s.now) j }
    requires r { IsPoly (S.state s.now) r }
    requires has { at < length bench.now.eqs.items }
    requires letters { length bench.now.path < MOST_LETTERS }
    ensures { IfOk result (λ m. m ≡ child (node_at (S.state s.now) bench.now) false
        (set (node_at (S.state s.now) bench.now).eqs at (polynomial_at (S.state s.now) r)
        ++ polynomial_at (S.state s.now) j ∷ [])
        (node_at (S.state s.now) bench.now).nes fuel) }
{
    let mut eqs = copy_equations(alloc, s, &bench.eqs)?;
    eqs[at] = copy_out(alloc, s, r)?;
    eqs.push(copy_out(alloc, s, j)?)?;
    let nes = copy_conditions(alloc, s, &bench.nes)?;
    Ok(Node {
        path: bench.path.child(false),
        eqs: Row::from_vec(eqs),
        nes: Row::from_vec(nes),
        fuel,
    })
}

/// The children of a node by an initial and a tail.
fn children<S: TermStore>(
    alloc: Global,
    s: &S,
    bench: &Bench,
    at: usize,
    j: Poly,
    r: Poly,
) -> Result<Parting, AllocError>
    requires eqs { AreFound (S.state s.now) bench.now.eqs.items }
    requires nes { AreHeld (S.state s.now) bench.now.nes.items }
    requires j { IsPoly (S.state s.now) j }
    requires r { IsPoly (S.state s.now) r }
    requires has { at < length bench.now.eqs.items }
    requires letters { length bench.now.path < MOST_LETTERS }
    requires tell { AllTell (node_at (S.state s.now) bench.now).nes bench.now.eqs.items
        (node_at (S.state s.now) bench.now).eqs }
    requires size { bench.now.size ≡ size_of (node_at (S.state s.now) bench.now) }
    requires most { bench.now.size ≤ MOST_FUEL }
    ensures { IfOk result (λ p. PartedBy (node_at (S.state s.now) bench.now) at
        (polynomial_at (S.state s.now) j) (polynomial_at (S.state s.now) r) p) }
{
    let gain = term_count(s, j);
    let terms = term_count(s, r);
    let minus_size = bench.size - bench.eqs[at].terms + terms + (1 + gain);
    let Some(fuels) = share(bench.fuel, bench.size, gain, minus_size) else {
        return Ok(Parting::Stopped(Reason::Fuel));
    };
    let initial = copy_out(alloc, s, j)?;
    let plus = plus_child(alloc, s, bench, j, fuels.plus)?;
    let minus = minus_child(alloc, s, bench, at, j, r, fuels.minus)?;
    Ok(Parting::Parted {
        initial,
        plus,
        minus,
    })
}

/// Splits a node on the initial of an equation.
pub fn split<S: TermStore>(
    version: u8,
    alloc: Global,
    s: &mut S,
    bench: &Bench,
    f: u16,
) -> Result<Parting, AllocError>
    requires stands { Stands (beneath (S.state s.old) bench.now) (S.state s.old) [] bench.now }
    requires valid { is_valid version (node_at (S.state s.old) bench.now) (attempt.Split f) ≡ true }
    requires room { EXPAND_UNITS ≤ (beneath (S.state s.old) bench.now).spare }
    ensures kept { Keeps (S.state s.old) (S.state s.new) }
    ensures parts { IfOk result (λ p. Parts version
        (node_at (S.state s.old) bench.now) f p) }
{
    if bench.path.len() == MOST_LETTERS {
        return Ok(Parting::Stopped(Reason::Depth));
    }
    let at = f as usize - 1;
    let poly = bench.eqs[at].poly;
    let initial = primitive_initial(s, poly);
    let tail = primitive_tail(s, poly);
    let parting = children(alloc, s, bench, at, initial, tail);
    give_up(s, tail);
    give_up(s, initial);
    parting
}

// The rules at a node whose polynomials are owned.
ghost use Rattle.std.specs.Prelude.{◌≡◌, ◌<◌, ◌+◌, suc, ◌-◌, ◌∷◌, ◌++◌, [], if◌then◌else◌, ℕ, List, Option, Some, None, Result, Ok, Err, IfOk, MatchOption, IsTrue, length, true, false};
ghost use Rattle.poly_model.specs.Polynomial.{Polynomial};
ghost use Rattle.poly_model.specs.Reduction.{class_of, reaches, is_constant, is_nonzero_constant, has_polynomial, primitive_initial, primitive_tail};
ghost use Rattle.proof_steps.specs.Numbers.{item, has, replaced, removed};
ghost use Rattle.proof_steps.specs.Rules.{sizes, size_of, is_short, after, dropped, has_known_initial, is_valid, limit_of, plus_child, minus_child, minus_fuel, child};
ghost use Rattle.log_checker.specs.Amounts.{spent};

use crate::arith::initial_part;
use crate::reads::{
    class_number, has_degree, is_member, is_number, is_zero, left_beside, numbered, term_count,
};
use poly_model::{OwnedPoly, Row};
use proof_steps::{Node, Path};
use std::alloc::{AllocError, Global};
use term_store::TermStore;

/// What is left of the fuel beside the size of a node with these equations and conditions.
pub fn fuel_beside(eqs: &[OwnedPoly], nes: &[OwnedPoly], fuel: u32) -> Option<u32>
    ensures { result ≡ spent fuel (4 + sizes eqs.now + sizes nes.now) }
{
    let left = left_beside(eqs, fuel.checked_sub(4)?)?;
    left_beside(nes, left)
}

/// The node, where it has fuel for its size.
pub fn with_fuel(node: Node) -> Option<Node>
    ensures { result ≡ (if is_short node then None else Some node) }
{
    let left = fuel_beside(node.eqs.as_slice(), node.nes.as_slice(), node.fuel);
    if left.is_some() { Some(node) } else { None }
}

/// The primitive part of the initial is a number other than 0, or one of the conditions.
pub fn is_known<S: TermStore>(
    alloc: Global,
    s: &mut S,
    nes: &[OwnedPoly],
    p: &OwnedPoly,
) -> Result<bool, AllocError>
    requires class { is_constant p.now ≡ false }
    ensures lists { (S.state s.new).lists ≡ (S.state s.old).lists }
    ensures ok { IfOk result (λ known. known ≡ has_known_initial nes.now p.now) }
{
    let initial = initial_part(alloc, s, p)?;
    Ok(is_number(&initial) || is_member(nes, &initial))
}

/// The degree of g reaches that of f in the greatest variable of f, which is at this place.
pub fn reaches(g: &OwnedPoly, f: &OwnedPoly, var: u8) -> bool
    requires { class_of f.now ≡ suc var }
    ensures { result ≡ reaches g.now f.now }
{
    let terms = f.terms();
    has_degree(g, var, terms[0].exps[var as usize])
}

/// The node without its i-th equation.
pub fn without(node: Node, i: u16) -> Node
    requires { IsTrue (has node.eqs i) }
    ensures { result ≡ dropped node i }
{
    let Node {
        path,
        eqs,
        nes,
        fuel,
    } = node;
    let mut eqs = eqs.into_vec();
    let _dropped = eqs.remove(i as usize - 1);
    Node {
        path,
        eqs: Row::from_vec(eqs),
        nes,
        fuel: fuel.saturating_sub(1),
    }
}

/// The node with a polynomial in place of its i-th equation.
pub fn with_equation(node: Node, i: u16, p: OwnedPoly) -> Node
    requires { IsTrue (has node.eqs i) }
    ensures { result ≡ after node (replaced node.eqs i p) (1 + length p) }
{
    let Node {
        path,
        eqs,
        nes,
        fuel,
    } = node;
    let cost = 1 + term_count(&p) as u32;
    let mut eqs = eqs.into_vec();
    eqs[i as usize - 1] = p;
    Node {
        path,
        eqs: Row::from_vec(eqs),
        nes,
        fuel: fuel.saturating_sub(cost),
    }
}

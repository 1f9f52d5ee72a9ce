// The children of a node that is split.
ghost use Rattle.std.specs.Prelude.{◌≡◌, ◌≤◌, ◌<◌, ◌+◌, ◌-◌, ◌/◌, ◌∷◌, ◌++◌, [], max, length, Option, Some, None, IfOk, MatchOption, IsTrue, true, false};
ghost use Rattle.std.specs.List.{list_any};
ghost use Rattle.poly_model.specs.Reduction.{is_constant, primitive_initial, primitive_tail};
ghost use Rattle.poly_model.specs.declared.limits.TheConstants.{MOST_LETTERS};
ghost use Rattle.proof_steps.specs.Numbers.{item, has, replaced};
ghost use Rattle.proof_steps.specs.Rules.{sizes, is_short, split_children};

use crate::arith::tail_part;
use crate::node::{fuel_beside, with_fuel};
use crate::reads::term_count;
use poly_model::{OwnedPoly, Row};
use proof_steps::Node;
use std::alloc::{AllocError, Global};
use term_store::TermStore;

/// Copies of polynomials.
pub fn copies(alloc: Global, ps: &[OwnedPoly]) -> Result<Vec<OwnedPoly>, AllocError>
    ensures { IfOk result (λ v. v.items ≡ ps.now) }
{
    let mut v = Vec::new(alloc);
    for p in ps {
        v.push(p.copy(alloc)?)?;
    }
    Ok(v)
}

/// The equations of the `-` child: the tail stands for the equation, and the initial is one more.
fn minus_equations<S: TermStore>(
    alloc: Global,
    s: &mut S,
    eqs: &[OwnedPoly],
    f: u16,
    initial: &OwnedPoly,
) -> Result<Vec<OwnedPoly>, AllocError>
    requires has { IsTrue (has eqs.now f) }
    requires class { is_constant (item eqs.now f) ≡ false }
    ensures { IfOk result (λ v. v.items
        ≡ replaced eqs.now f (primitive_tail (item eqs.now f)) ++ initial.now ∷ []) }
{
    let at = f as usize - 1;
    let tail = tail_part(alloc, s, &eqs[at])?;
    let mut minus = copies(alloc, eqs)?;
    minus[at] = tail;
    minus.push(initial.copy(alloc)?)?;
    Ok(minus)
}

/// What is left for the `+` child and for the `-` child, which has an eighth, or its size where that is more.
fn shared(minus: &[OwnedPoly], nes: &[OwnedPoly], left: u32) -> Option<(u32, u32)>
    ensures { MatchOption result (left < 4 + sizes minus.now + sizes nes.now)
        (λ fuel. (fuel.1 ≡ max (left / 8) (4 + sizes minus.now + sizes nes.now))
        × (fuel.0 ≡ left - fuel.1)) }
{
    let beside = fuel_beside(minus, nes, left)?;
    let size = left - beside;
    let second = (left / 8).max(size);
    Some((left - second, second))
}

/// The children of a node that is split on the primitive part of the initial of its f-th equation, the `+` child first,
/// where both have fuel for their sizes.
pub fn children<S: TermStore>(
    alloc: Global,
    s: &mut S,
    node: Node,
    f: u16,
    initial: OwnedPoly,
) -> Result<Option<(Node, Node)>, AllocError>
    requires has { IsTrue (has node.eqs f) }
    requires class { is_constant (item node.eqs f) ≡ false }
    requires initial { initial ≡ primitive_initial (item node.eqs f) }
    requires letters { length node.path < MOST_LETTERS }
    ensures { IfOk result (λ o. MatchOption o (list_any is_short (split_children node f) ≡ true)
        (λ pair. (list_any is_short (split_children node f) ≡ false)
        × (split_children node f ≡ pair.0 ∷ pair.1 ∷ []))) }
{
    let Node {
        path,
        eqs,
        nes,
        fuel,
    } = node;
    let left = fuel.saturating_sub(1 + term_count(&initial) as u32);
    let minus_eqs = minus_equations(alloc, s, eqs.as_slice(), f, &initial)?;
    let Some((plus_fuel, minus_fuel)) = shared(&minus_eqs, nes.as_slice(), left) else {
        return Ok(None);
    };
    let minus_nes = copies(alloc, nes.as_slice())?;
    let mut plus_nes = nes.into_vec();
    plus_nes.push(initial)?;
    let plus = with_fuel(Node {
        path: path.child(true),
        eqs,
        nes: Row::from_vec(plus_nes),
        fuel: plus_fuel,
    });
    let Some(plus) = plus else {
        return Ok(None);
    };
    let minus = Node {
        path: path.child(false),
        eqs: Row::from_vec(minus_eqs),
        nes: Row::from_vec(minus_nes),
        fuel: minus_fuel,
    };
    Ok(Some((plus, minus)))
}

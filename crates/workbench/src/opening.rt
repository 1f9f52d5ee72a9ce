// A node is brought into a store.
ghost use Rattle.std.specs.Prelude.{◌≡◌, ◌≤◌, ◌+◌, IfOk, OnErr};
ghost use Rattle.poly_model.specs.declared.limits.TheConstants.{ARITH_UNITS, EXPAND_UNITS, MOST_FUEL};
ghost use Rattle.proof_steps.specs.Rules.{size_of, sizes};
ghost use Rattle.term_store.specs.Changes.{Keeps};
ghost use Rattle.workbench.specs.Standing.{Becomes};
ghost use Rattle.workbench.specs.Copies.{Copied};

use crate::bench::Bench;
use crate::facts::all_held;
use crate::lists::release_polys;
use crate::parts::give_up;
use poly_model::OwnedPoly;
use polynomials::{Poly, copy_in};
use proof_steps::Node;
use std::alloc::{AllocError, Global};
use term_store::TermStore;

/// Copies of these in the store.
fn copy_all<S: TermStore>(
    alloc: Global,
    s: &mut S,
    ps: &[OwnedPoly],
) -> Result<Vec<Poly>, AllocError>
    requires room { sizes ps.now + ARITH_UNITS ≤ (S.state s.old).spare }
    ensures copied { IfOk result (λ v. Copied (S.state s.old) (S.state s.new) v.items ps.now) }
    ensures refused { OnErr result (Keeps (S.state s.old) (S.state s.new)) }
{
    let mut copies = Vec::new(alloc);
    let mut rest = ps;
    while let Some((first, after)) = rest.split_first() {
        let p = copy_in(s, first);
        if let Err(refused) = copies.push(p) {
            give_up(s, p);
            release_polys(s, &copies);
            return Err(refused.into());
        }
        rest = after;
    }
    Ok(copies)
}

/// What these add to the size of a node: 1 and the number of terms of each.
fn sizes(ps: &[OwnedPoly]) -> u32
    requires { sizes ps.now ≤ MOST_FUEL }
    ensures { result ≡ sizes ps.now }
{
    let mut sum = 0;
    let mut rest = ps;
    while let Some((first, after)) = rest.split_first() {
        sum += 1 + first.terms().len() as u32;
        rest = after;
    }
    sum
}

/// The node with copies of its polynomials in the store, and what is known of its equations.
pub fn open<S: TermStore>(alloc: Global, s: &mut S, node: &Node) -> Result<Bench, AllocError>
    requires fuel { size_of node.now ≤ node.now.fuel }
    requires most { node.now.fuel ≤ MOST_FUEL }
    requires room { EXPAND_UNITS ≤ (S.state s.old).spare }
    ensures opened { IfOk result (λ b. Becomes (S.state s.old) (S.state s.new) b node.now) }
    ensures refused { OnErr result (Keeps (S.state s.old) (S.state s.new)) }
{
    let size = 4 + sizes(node.eqs.as_slice()) + sizes(node.nes.as_slice());
    let nes = copy_all(alloc, s, node.nes.as_slice())?;
    let eqs = match copy_all(alloc, s, node.eqs.as_slice()) {
        Ok(eqs) => eqs,
        Err(refused) => {
            release_polys(s, &nes);
            return Err(refused);
        }
    };
    match all_held(alloc, s, &nes, &eqs) {
        Ok(held) => Ok(Bench {
            path: node.path,
            eqs: held,
            nes,
            fuel: node.fuel,
            size,
        }),
        Err(refused) => {
            release_polys(s, &eqs);
            release_polys(s, &nes);
            Err(refused)
        }
    }
}

// The reduction of the conclusions by a system.
ghost use Rattle.std.specs.Prelude.{◌≡◌, ◌≤◌, ◌<◌, ◌^◌, ◌++◌, ◌∷◌, [], Some, IfOk, OnOk, map, length};
ghost use Rattle.proof_steps.specs.declared.piece.LeafStatus.TheVariants.{Remainder, Unreduced};
ghost use Rattle.poly_model.specs.declared.limits.TheConstants.{LEAF_UNITS, MOST_CONCLUSIONS};
ghost use Rattle.proof_steps.specs.Chain.{chain_of};
ghost use Rattle.term_store.specs.Changes.{Keeps, given_up};
ghost use Rattle.polynomials.specs.Held.{IsPoly, polynomial_at, slot_of};
ghost use Rattle.workbench.specs.Standing.{AllTell, AreFound, AreHeld, held_at};
ghost use Rattle.triangular.specs.Chains.{Comes};
ghost use Rattle.proof_steps.specs.Classes.{HaveOwnClasses};

use crate::reducer::{equation, first_of_class, reducing_class};
use poly_model::OwnedPoly;
use polynomials::{Poly, copy_in, copy_out};
use proof_steps::{ChainStep, LeafStatus, Reason};
use pseudo_div::{Advance, step_on};
use std::alloc::{AllocError, Global};
use term_store::TermStore;
use workbench::{Held, all_held, give_up, term_count};

/// The steps of a chain so far, and what is left of its fuel.
#[derive(Debug, Drop)]
struct Chain {
    steps: Vec<ChainStep>,
    left: u32,
}

/// The k-th conclusion stays as this polynomial, whose list is given up.
fn remainder<S: TermStore>(
    alloc: Global,
    s: &mut S,
    k: u8,
    p: Poly,
) -> Result<Option<LeafStatus>, AllocError>
    requires { IsPoly (S.state s.old) p }
    ensures kept { Keeps (given_up (S.state s.old) (slot_of p)) (S.state s.new) }
    ensures status { IfOk result (λ o. o ≡ Some (Remainder k (polynomial_at (S.state s.old) p))) }
{
    let copy = copy_out(alloc, s, p);
    give_up(s, p);
    Ok(Some(LeafStatus::Remainder { k, r: copy? }))
}

/// The k-th conclusion stays, where the next step by the equation number f is stopped.
fn unreduced(k: u8, reason: Reason, f: usize) -> LeafStatus
    requires { f < 2 ^ 16 }
    ensures { result ≡ Unreduced k reason f }
{
    LeafStatus::Unreduced {
        k,
        reason,
        f: f as u16,
    }
}

/// One more step of a chain: the k-th conclusion is reduced by the equation number f.
fn add_step(chain: &mut Chain, k: u8, f: usize, m: i128, r: OwnedPoly) -> Result<(), AllocError>
    requires { f < 2 ^ 16 }
    ensures { OnOk result (chain.new.steps.items
        ≡ chain.old.steps.items ++ record { k = k; f = f; m = m; r = r } ∷ []) }
{
    let f = f as u16;
    chain.steps.push(ChainStep { k, f, m, r })?;
    Ok(())
}

/// Reduces the k-th conclusion as far as it goes, and gives its list up: the status where the chain
/// ends with it, and None where it is 0.
fn reduce_one<S: TermStore>(
    alloc: Global,
    s: &mut S,
    hs: &[Held],
    k: u8,
    p: Poly,
    chain: &mut Chain,
) -> Result<Option<LeafStatus>, AllocError>
    requires p { IsPoly (S.state s.old) p }
    requires found { AreFound (given_up (S.state s.old) (slot_of p)) hs.now }
    requires tell { AllTell [] hs.now
        (map (held_at (given_up (S.state s.old) (slot_of p))) hs.now) }
    requires own { HaveOwnClasses (map (held_at (given_up (S.state s.old) (slot_of p))) hs.now) }
    requires few { length hs.now < 2 ^ 16 }
    requires room { LEAF_UNITS ≤ (given_up (S.state s.old) (slot_of p)).spare }
    ensures kept { Keeps (given_up (S.state s.old) (slot_of p)) (S.state s.new) }
    ensures comes { IfOk result (λ o. Comes
        (map (held_at (given_up (S.state s.old) (slot_of p))) hs.now) k
        (polynomial_at (S.state s.old) p) chain.old.steps.items chain.old.left
        chain.new.steps.items chain.new.left o) }
{
    let mut rest = p;
    while term_count(s, rest) > 0 {
        let x = reducing_class(s, hs, rest);
        if x == 0 {
            return remainder(alloc, s, k, rest);
        }
        let f = first_of_class(hs, x);
        let by = equation(hs, f);
        match step_on(alloc, s, rest, by.poly, x - 1, chain.left) {
            Err(refused) => {
                give_up(s, rest);
                return Err(refused);
            }
            Ok(Advance::Stopped(reason)) => {
                give_up(s, rest);
                return Ok(Some(unreduced(k, reason, f)));
            }
            Ok(
                Advance::Stepped {
                    multiplier,
                    result,
                    rest: next,
                    fuel,
                },
            ) => {
                if let Err(refused) = add_step(chain, k, f, multiplier, result) {
                    give_up(s, next);
                    return Err(refused);
                }
                rest = next;
                chain.left = fuel;
            }
        }
    }
    give_up(s, rest);
    Ok(None)
}

/// Reduces the conclusions by the equations of a system, one after the other: each by the equation
/// of the greatest class whose degree it reaches, as long as there is one, and each step paid from
/// the fuel with 1 and the terms of its result. The chain ends at the first conclusion that stays
/// other than 0, at the first step that meets a limit or that the fuel does not pay, or where all
/// are 0.
pub fn reduce_conclusions<S: TermStore>(
    alloc: Global,
    s: &mut S,
    eqs: &[Poly],
    cons: &[OwnedPoly],
    fuel: u32,
) -> Result<(Vec<ChainStep>, LeafStatus), AllocError>
    requires eqs { AreHeld (S.state s.old) eqs.now }
    requires own { HaveOwnClasses (map (polynomial_at (S.state s.old)) eqs.now) }
    requires few { length eqs.now < 2 ^ 16 }
    requires cons { length cons.now ≤ MOST_CONCLUSIONS }
    requires room { LEAF_UNITS ≤ (S.state s.old).spare }
    ensures chain { IfOk result (λ c. (c.0.items, c.1)
        ≡ chain_of (map (polynomial_at (S.state s.old)) eqs.now) cons.now fuel) }
    ensures kept { Keeps (S.state s.old) (S.state s.new) }
{
    let hs = all_held(alloc, s, &[], eqs)?;
    let mut chain = Chain {
        steps: Vec::new(alloc),
        left: fuel,
    };
    let mut k = 1;
    let mut rest = cons;
    while let Some((first, after)) = rest.split_first() {
        let p = copy_in(s, first);
        if let Some(status) = reduce_one(alloc, s, &hs, k, p, &mut chain)? {
            return Ok((chain.steps, status));
        }
        k += 1;
        rest = after;
    }
    Ok((chain.steps, LeafStatus::Proved))
}

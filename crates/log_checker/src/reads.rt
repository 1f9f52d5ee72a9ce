// What is read off owned polynomials and lists of them.
ghost use Rattle.std.specs.Prelude.{◌≡◌, ◌<◌, ◌≤◌, nat_le, length, map, IfOk, Option, Some, None, MatchOption, IsTrue, true, false};
ghost use Rattle.poly_model.specs.Reduction.{class_of, main_place, main_degree, degree_at, reaches, is_constant, is_zero, is_nonzero_constant, has_polynomial};
ghost use Rattle.poly_model.specs.declared.limits.TheConstants.{MOST_VARIABLES, MOST_TERMS};
ghost use Rattle.proof_steps.specs.Numbers.{item, has};
ghost use Rattle.proof_steps.specs.Rules.{sizes};
ghost use Rattle.log_checker.specs.Amounts.{spent};

use poly_model::OwnedPoly;
use polynomials::greatest;
use std::alloc::{AllocError, Global};

/// The number of the greatest variable, and 0 of a constant.
pub fn class_number(p: &OwnedPoly) -> u8
    ensures class { result ≡ class_of p.now }
    ensures within { result ≤ MOST_VARIABLES }
{
    let terms = p.terms();
    if terms.is_empty() {
        return 0;
    }
    match greatest(&terms[0].exps) {
        None => 0,
        Some(place) => place + 1,
    }
}

/// The numbers of the greatest variables of these.
pub fn classes_of(alloc: Global, ps: &[OwnedPoly]) -> Result<Vec<u8>, AllocError>
    ensures { IfOk result (λ v. v.items ≡ map class_of ps.now) }
{
    let mut classes = Vec::new(alloc);
    for p in ps {
        classes.push(class_number(p))?;
    }
    Ok(classes)
}

/// The degree in the variable at a place is so much or more.
pub fn has_degree(p: &OwnedPoly, var: u8, least: u8) -> bool
    requires { var < MOST_VARIABLES }
    ensures { result ≡ nat_le least (degree_at var p.now) }
{
    let mut rest = p.terms();
    while let Some((first, after)) = rest.split_first() {
        if least <= first.exps[var as usize] {
            return true;
        }
        rest = after;
    }
    least == 0
}

/// The number of terms.
pub fn term_count(p: &OwnedPoly) -> usize
    ensures count { result ≡ length p.now }
    ensures few { result ≤ MOST_TERMS }
{
    p.terms().len()
}

/// The polynomial is 0.
pub fn is_zero(p: &OwnedPoly) -> bool
    ensures { result ≡ is_zero p.now }
{
    p.terms().is_empty()
}

/// The polynomial is a number other than 0.
pub fn is_number(p: &OwnedPoly) -> bool
    ensures { result ≡ is_nonzero_constant p.now }
{
    !p.terms().is_empty() && class_number(p) == 0
}

/// The polynomial is one of these.
pub fn is_member(ps: &[OwnedPoly], p: &OwnedPoly) -> bool
    ensures { result ≡ has_polynomial ps.now p.now }
{
    ps.iter().any(|q| p == q)
}

/// The i-th of these, if there is one.
pub fn numbered(ps: &[OwnedPoly], i: u16) -> Option<&OwnedPoly>
    ensures { MatchOption result (has ps.now i ≡ false)
        (λ p. (has ps.now i ≡ true) × (p.now ≡ item ps.now i)) }
{
    ps.get((i as usize).checked_sub(1)?)
}

/// What is left of an amount beside the sizes of these.
pub fn left_beside(ps: &[OwnedPoly], amount: u32) -> Option<u32>
    ensures { result ≡ spent amount (sizes ps.now) }
{
    let mut left = amount;
    let mut rest = ps;
    while let Some((first, after)) = rest.split_first() {
        left = left.checked_sub(1)?.checked_sub(term_count(first) as u32)?;
        rest = after;
    }
    Some(left)
}

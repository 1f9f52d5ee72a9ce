ghost use Rattle.std.specs.Prelude.{◌≡◌, ◌≢◌, ◌<◌, ◌≤◌, ◌↔◌, IsTrue, IfOk, IfErr, IsErrOf, length, codes, true, []};
ghost use Rattle.poly_model.specs.Names.{are_variables};
ghost use Rattle.poly_model.specs.Polynomial.{Polynomial, is_over};
ghost use Rattle.poly_model.specs.Standard.{polynomial_of, is_standard};
ghost use Rattle.poly_text.specs.Text.{poly_text, terms_text};

use crate::fault::PolyFault;
use crate::terms::read_entry;
use poly_model::{MOST_TERMS, MOST_VARIABLES, OwnedPoly, Term, Vars};
use std::alloc::Global;

fn same_bytes(a: &[u8], b: &[u8]) -> bool
    ensures { IsTrue result ↔ (a.now ≡ b.now) }
{
    a == b
}

/// How many bytes a short term takes, with its sign: room for terms is taken by it.
const SHORT_TERM: usize = 12;

/// An empty list, with room for about as many terms as a text spells.
fn room_for(alloc: Global, text: &[u8]) -> Result<Vec<Term>, PolyFault>
    ensures spells { IfOk result (λ terms. terms.items ≡ []) }
    ensures memory { IfErr result (λ fault. fault ≡ PolyFault.OutOfMemory) }
{
    match Vec::with_capacity(alloc, (text.len() / SHORT_TERM).min(MOST_TERMS)) {
        Ok(terms) => Ok(terms),
        Err(_) => Err(PolyFault::OutOfMemory),
    }
}

/// The terms of a text that is not `0`.
fn read_terms(alloc: Global, text: &[u8], vars: &Vars) -> Result<Vec<Term>, PolyFault>
    requires { IsTrue (are_variables vars.now) }
    ensures spells { IfOk result (λ terms. IsTrue (is_over (length vars.now) (polynomial_of
        terms.items)) × (text.now ≡ terms_text true vars.now (polynomial_of terms.items))) }
    ensures only { IfOk result (λ terms. (p : Polynomial) → IsTrue (is_standard p)
        → IsTrue (is_over (length vars.now) p)
        → text.now ≡ terms_text true vars.now p → p ≡ polynomial_of terms.items) }
    ensures refuses { IsErrOf result PolyFault.BadPoly → (p : Polynomial)
        → IsTrue (is_standard p) → IsTrue (is_over (length vars.now) p)
        → text.now ≢ terms_text true vars.now p }
{
    let mut terms = room_for(alloc, text)?;
    let mut rest = text;
    while !rest.is_empty() {
        if terms.len() >= MOST_TERMS {
            return Err(PolyFault::BadPoly);
        }
        let Some((term, after)) = read_entry(terms.is_empty(), vars, rest) else {
            return Err(PolyFault::BadPoly);
        };
        let Ok(()) = terms.push(term) else {
            return Err(PolyFault::OutOfMemory);
        };
        rest = after;
    }
    Ok(terms)
}

/// The terms of a text.
fn read_list(alloc: Global, text: &[u8], vars: &Vars) -> Result<Vec<Term>, PolyFault>
    requires { IsTrue (are_variables vars.now) }
    ensures spells { IfOk result (λ terms. IsTrue (is_over (length vars.now) (polynomial_of
        terms.items)) × (text.now ≡ poly_text vars.now (polynomial_of terms.items))) }
    ensures only { IfOk result (λ terms. (p : Polynomial) → IsTrue (is_standard p)
        → IsTrue (is_over (length vars.now) p)
        → text.now ≡ poly_text vars.now p → p ≡ polynomial_of terms.items) }
    ensures refuses { IsErrOf result PolyFault.BadPoly → (p : Polynomial)
        → IsTrue (is_standard p) → IsTrue (is_over (length vars.now) p)
        → text.now ≢ poly_text vars.now p }
{
    if text.is_empty() {
        return Err(PolyFault::BadPoly);
    }
    if same_bytes(text, b"0") {
        return Ok(Vec::new(alloc));
    }
    read_terms(alloc, text, vars)
}

/// The polynomial that a text spells over these variables.
pub fn read_poly(alloc: Global, text: &[u8], vars: &Vars) -> Result<OwnedPoly, PolyFault>
    ensures reads { IfOk result (λ p. IsTrue (is_standard p)
        × IsTrue (is_over (length vars.now) p) × (text.now ≡ poly_text vars.now p)) }
    ensures only { (p : Polynomial) → IsTrue (is_standard p)
        → IsTrue (is_over (length vars.now) p) → text.now ≡ poly_text vars.now p
        → IfOk result (λ q. q ≡ p) }
    ensures refuses { IsErrOf result PolyFault.BadPoly → (p : Polynomial)
        → IsTrue (is_standard p) → IsTrue (is_over (length vars.now) p)
        → text.now ≢ poly_text vars.now p }
{
    prove!(vars.len() <= MOST_VARIABLES);
    match OwnedPoly::from_terms(read_list(alloc, text, vars)?) {
        Ok(p) => Ok(p),
        Err(_) => Err(PolyFault::BadPoly),
    }
}

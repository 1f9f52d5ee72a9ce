ghost use Rattle.std.specs.Prelude.{◌≡◌, ◌↔◌, IsTrue, IfOk, IfErr, false};
ghost use Rattle.poly_model.specs.Standard.{polynomial_of, is_standard};
ghost use Rattle.poly_model.specs.Reduction.{same};
ghost use Rattle.poly_model.specs.Equality.{same-laws};

use crate::term::{Term, are_standard};
use std::alloc::{AllocError, Global};
use std::marker::Model;

/// A polynomial within the limits: its terms in descending order, none of them 0. Contracts see the polynomial.
#[derive(Debug, Drop)]
pub struct OwnedPoly {
    terms: Vec<Term>,
}

impl Model for OwnedPoly {
    ghost use Rattle.std.specs.Prelude.{IsTrue};
    ghost use Rattle.poly_model.specs.Polynomial.{Polynomial};
    ghost use Rattle.poly_model.specs.Standard.{polynomial_of, is_standard};

    ghost Value = { Polynomial };

    ghost view = { λ p. polynomial_of p.terms.items };

    ghost invariant = { λ p. IsTrue (is_standard (polynomial_of p.terms.items)) };
}

impl PartialEq for OwnedPoly {
    ghost eq = { same };

    ghost laws = { same-laws };

    fn eq(&self, other: &OwnedPoly) -> bool {
        same_terms(&self.terms, &other.terms)
    }
}

fn same_terms(a: &[Term], b: &[Term]) -> bool
    ensures { IsTrue result ↔ (a.now ≡ b.now) }
{
    a == b
}

impl OwnedPoly {
    /// The polynomial of these terms. The list is handed back exactly where it is not in descending order, has a
    /// coefficient 0 or passes a limit.
    pub fn from_terms(terms: Vec<Term>) -> Result<OwnedPoly, Vec<Term>>
        ensures ok { IfOk result (λ p. IsTrue (is_standard (polynomial_of terms.items)) × (p
            ≡ polynomial_of terms.items)) }
        ensures err { IfErr result (λ back. (is_standard (polynomial_of terms.items) ≡ false)
            × (back ≡ terms)) }
    {
        if are_standard(&terms) {
            Ok(OwnedPoly { terms })
        } else {
            Err(terms)
        }
    }

    /// The terms, the greatest first.
    pub fn terms(&self) -> &[Term]
        ensures terms { polynomial_of result.now ≡ self.now }
        ensures standard { IsTrue (is_standard self.now) }
    {
        &self.terms
    }

    /// The two are the same polynomial.
    pub fn equals(&self, other: &OwnedPoly) -> bool
        ensures { IsTrue result ↔ (self.now ≡ other.now) }
    {
        self == other
    }

    /// Another copy of the polynomial.
    pub fn copy(&self, alloc: Global) -> Result<OwnedPoly, AllocError>
        ensures { IfOk result (λ p. p ≡ self.now) }
    {
        let terms = Vec::from_slice(alloc, &self.terms)?;
        Ok(OwnedPoly { terms })
    }
}

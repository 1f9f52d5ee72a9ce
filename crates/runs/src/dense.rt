// Polynomials of many terms.
use anyhow::{Result, bail};
use poly_model::{MOST_VARIABLES, OwnedPoly, Term};
use std::alloc::{AllocError, Global};

/// How the monomials u1^(step*j + first)*u2^i*u3^top for i and j below the width are given coefficients: from `least` on.
#[derive(Clone, Copy, Debug)]
pub struct Block {
    pub width: u8,
    pub step: u8,
    pub first: u8,
    pub top: u8,
    pub least: u8,
}

impl Block {
    /// A full square of monomials in u1 and u2.
    pub fn square(width: u8, least: u8) -> Block {
        Block {
            width,
            step: 1,
            first: 0,
            top: 0,
            least,
        }
    }

    fn term(&self, i: u8, j: u8) -> Term {
        let mut exps = [0; MOST_VARIABLES];
        exps[0] = self.step.saturating_mul(j).saturating_add(self.first);
        exps[1] = i;
        exps[2] = self.top;
        Term {
            coef: i128::from(self.least) + i128::from(i) + 2 * i128::from(j),
            exps,
        }
    }

    fn push_row(&self, terms: &mut Vec<Term>, i: u8) -> Result<(), AllocError> {
        for j in (0..self.width).rev() {
            terms.push(self.term(i, j))?;
        }
        Ok(())
    }

    fn push_all(&self, terms: &mut Vec<Term>) -> Result<(), AllocError> {
        for i in (0..self.width).rev() {
            self.push_row(terms, i)?;
        }
        Ok(())
    }
}

/// The polynomial of blocks, the greatest monomials first.
pub fn polynomial(alloc: Global, blocks: &[Block]) -> Result<OwnedPoly> {
    let mut terms = Vec::new(alloc);
    for block in blocks {
        block.push_all(&mut terms)?;
    }
    match OwnedPoly::from_terms(terms) {
        Ok(p) => Ok(p),
        Err(_) => bail!("these blocks are no polynomial within the limits"),
    }
}

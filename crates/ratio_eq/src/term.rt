// The fraction of a term, from its parts in preorder.
ghost use Rattle.std.specs.Prelude.{◌≡◌, ◌≤◌, length, drop, IfOk};
ghost use Rattle.ratio_eq.specs.Outcomes.{Gives};
ghost use Rattle.ratio_terms.specs.Taking.{AreWhole, TakesFirst};
ghost use Rattle.ratio_eq.specs.Forming.{formed_of, bounded_first};

use crate::fault::RatioFault;
use crate::fraction::{Fraction, joined, leaf};
use crate::vector::Vector;
use ratio_terms::Part;
use std::alloc::Global;

/// The fraction of a term, and how many parts and places are its own.
#[derive(Debug, Drop)]
pub struct Taken {
    pub fraction: Fraction,
    pub parts: usize,
    pub spots: usize,
}

/// What stands behind so many.
pub fn behind<T>(items: &[T], n: usize) -> &[T]
    requires { n ≤ length items.now }
    ensures { result.now ≡ drop n items.now }
{
    &items[n..]
}

/// The fraction of the first term of parts over places, or the limit that is met first.
pub fn term(alloc: Global, parts: &[Part], spots: &[Vector]) -> Result<Taken, RatioFault>
    requires { AreWhole parts.now spots.now }
    ensures value { Gives (λ t. formed_of t.fraction) result (bounded_first parts.now spots.now) }
    ensures takes { IfOk result (λ t. TakesFirst parts.now spots.now t.parts t.spots) }
{
    let Some((part, inner)) = parts.split_first() else {
        unreachable!()
    };
    if part.operands() == 0 {
        return Ok(Taken {
            fraction: leaf(alloc, *part, spots)?,
            parts: 1,
            spots: part.names(),
        });
    }
    let first = term(alloc, inner, spots)?;
    let second = term(
        alloc,
        behind(inner, first.parts),
        behind(spots, first.spots),
    )?;
    let (parts, spots) = (1 + first.parts + second.parts, first.spots + second.spots);
    Ok(Taken {
        fraction: joined(alloc, *part, first.fraction, second.fraction)?,
        parts,
        spots,
    })
}

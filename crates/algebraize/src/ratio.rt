// Numbers of millionths as ratios in lowest terms.
ghost use Rattle.std.specs.Prelude.{◌≡◌, ◌≤◌, ◌<◌, pos, unsigned_abs};
ghost use Rattle.algebraize.specs.Ratio.{common_factor, denominator, numerator};
ghost use Rattle.algebraize.specs.declared.ratio.TheConstants.{MILLIONTHS, MOST_MILLIONTHS};

use crate::primitive::divided;
use edge_num::gcd;
use fixed_point::Fix;

/// How many millionths are one.
pub const MILLIONTHS: u128 = 1_000_000;

/// The greatest size of a number, in millionths.
pub const MOST_MILLIONTHS: u128 = 1_000_000_000_000;

/// A ratio in lowest terms; the denominator is positive.
#[derive(Clone, Copy, Debug, PartialEq, Eq)]
pub struct Ratio {
    pub numerator: i128,
    pub denominator: i128,
}

/// By how much a number of millionths is shortened.
fn common_factor(number: Fix) -> u128
    ensures value { result ≡ common_factor number }
    ensures positive { 0 < result }
{
    gcd(MILLIONTHS, i128::from(number.millionths()).unsigned_abs())
}

impl Ratio {
    /// A number as a ratio in lowest terms.
    pub fn in_lowest_terms(number: Fix) -> Ratio
        ensures numerator { result.numerator ≡ numerator number }
        ensures denominator { result.denominator ≡ pos (denominator number) }
        ensures numerator_size { unsigned_abs result.numerator ≤ MOST_MILLIONTHS }
        ensures denominator_size { unsigned_abs result.denominator ≤ MILLIONTHS }
    {
        let factor = common_factor(number);
        Ratio {
            numerator: divided(i128::from(number.millionths()), false, factor),
            denominator: divided(MILLIONTHS as i128, false, factor),
        }
    }
}

// Rounded quotients.
ghost use Rattle.std.specs.Prelude.{◌≡◌, ◌≤◌, pos, ◌<ℤ◌, ◌≤ℤ◌, unsigned_abs};
ghost use Rattle.edge_num.specs.Numbers.{nearest, IsNearest, NearestIsTheOne};

use crate::limits::{MOST_DIVIDEND, MOST_DIVISOR};

/// The whole number nearest to `n / d`; halfway between two, the greater one.
///
/// So `round_div(3, 2)` is 2 and `round_div(-3, 2)` is -1: ties go upwards, and not away from zero.
pub fn round_div(n: i128, d: i128) -> i128
    requires divisor_positive { pos 0 <ℤ d }
    requires divisor_small { d ≤ℤ pos MOST_DIVISOR }
    requires dividend_small { unsigned_abs n ≤ MOST_DIVIDEND }
    ensures value { result ≡ nearest n d }
    ensures law { IsNearest n d result }
{
    (2 * n + d).div_euclid(2 * d)
}

/// For every positive divisor, `nearest` is near, and nothing else is.
///
/// It computes nothing: its contract is the law, over whole numbers of any size.
pub fn nearest_is_the_one()
    ensures { NearestIsTheOne }
{}

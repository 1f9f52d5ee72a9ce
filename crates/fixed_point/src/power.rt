ghost use Rattle.std.specs.Prelude.{◌≡◌, ◌≤◌, ◌^◌};

use crate::limits::MOST_DECIMALS;

/// A power of ten, of at most as many zeros as a number has decimals.
pub fn power_of_ten(exponent: u32) -> u64
    requires { exponent ≤ MOST_DECIMALS }
    ensures bounds { (1 ≤ result) × (result ≤ 10 ^ MOST_DECIMALS) }
    ensures value { result ≡ 10 ^ exponent }
{
    10u64.pow(exponent)
}

// Common divisors.
ghost use Rattle.std.specs.Int.{IsGcd};

/// The greatest common divisor, by Euclid's algorithm; that of 0 and 0 is 0.
pub fn gcd(a: u128, b: u128) -> u128
    ensures { IsGcd a b result }
{
    let mut greater = a;
    let mut smaller = b;
    while smaller != 0 {
        (greater, smaller) = (smaller, greater % smaller);
    }
    greater
}

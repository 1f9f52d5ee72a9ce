// Sums and products that may pass the greatest size.
ghost use Rattle.std.specs.Prelude.{◌+ℤ◌, ◌*ℤ◌, ◌≤◌, SomeIff, unsigned_abs};

use crate::limits::MOST_SIZE;

/// The sum, or `None` where its size passes the greatest.
pub fn add_in(a: i128, b: i128) -> Option<i128>
    requires a { unsigned_abs a ≤ MOST_SIZE }
    requires b { unsigned_abs b ≤ MOST_SIZE }
    ensures { SomeIff result (unsigned_abs (a +ℤ b) ≤ MOST_SIZE) (a +ℤ b) }
{
    let sum = a.checked_add(b)?;
    if sum == i128::MIN { None } else { Some(sum) }
}

/// The product, or `None` where its size passes the greatest.
pub fn mul_in(a: i128, b: i128) -> Option<i128>
    requires a { unsigned_abs a ≤ MOST_SIZE }
    requires b { unsigned_abs b ≤ MOST_SIZE }
    ensures { SomeIff result (unsigned_abs (a *ℤ b) ≤ MOST_SIZE) (a *ℤ b) }
{
    let product = a.checked_mul(b)?;
    if product == i128::MIN {
        None
    } else {
        Some(product)
    }
}

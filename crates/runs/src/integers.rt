// Rows of integers.
use anyhow::{Result, bail};
use edge_num::{add_in, gcd, isqrt, mul_in, round_div};

// A dividend, a divisor, and the whole number that is nearest to their quotient: ties go upwards.
const QUOTIENTS: [(i128, i128, i128); 5] = [
    (3, 2, 2),
    (-3, 2, -1),
    (8, 3, 3),
    (-7, 3, -2),
    (-150, 100, -1),
];

/// All rows.
pub fn check_all() -> Result<()> {
    for (n, d, nearest) in QUOTIENTS {
        if round_div(n, d) != nearest {
            bail!("{n} by {d}: another quotient");
        }
    }
    if add_in(i128::MAX, -1) != Some(i128::MAX - 1) || add_in(-i128::MAX, -1).is_some() {
        bail!("another sum");
    }
    if mul_in(-7, 1 << 124) != Some(-7 << 124) || mul_in(2, 1 << 126).is_some() {
        bail!("another product");
    }
    if gcd(12, 18) != 6 {
        bail!("another common divisor");
    }
    if isqrt(99) != 9 || isqrt(u128::MAX) != u64::MAX as u128 {
        bail!("another root");
    }
    Ok(())
}

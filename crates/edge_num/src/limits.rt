// The sizes that numbers may have.

/// The greatest size of a number, 2^127 - 1. The least `i128` passes it.
pub const MOST_SIZE: u128 = 0x7fff_ffff_ffff_ffff_ffff_ffff_ffff_ffff;

/// The greatest divisor of a rounded quotient, 2^100.
pub const MOST_DIVISOR: u128 = 0x10_0000_0000_0000_0000_0000_0000;

/// The greatest size of the dividend of a rounded quotient, 2^120.
pub const MOST_DIVIDEND: u128 = 0x100_0000_0000_0000_0000_0000_0000_0000;

/// The greatest size of a term of a sum of `Whole` numbers, 2^125.
pub const MOST_TERM: u128 = 0x2000_0000_0000_0000_0000_0000_0000_0000;

/// The greatest whole square root of a number of 128 bits, 2^64 - 1.
pub const MOST_ROOT: u64 = u64::MAX;

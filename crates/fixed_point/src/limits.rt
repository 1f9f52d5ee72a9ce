// The limits of numbers and of the plane.

/// The most decimals of a number, so that its value is a whole number of millionths.
pub const MOST_DECIMALS: u32 = 6;

/// The greatest size of a number, in millionths: a million.
pub const MOST_MILLIONTHS: u64 = 1_000_000_000_000;

/// The decimals of a position in millimetres, so that it is a whole number of ticks.
pub const TICK_DECIMALS: u32 = 4;

/// How many millionths of a millimetre a tick is.
pub const TICK_MILLIONTHS: u64 = 100;

/// The greatest size of a coordinate, and the greatest extent of a picture, in ticks: ten metres.
pub const MOST_TICKS: u64 = 100_000_000;

// The numbers by which points are placed.
/// How many millionths are one.
pub const MILLION: u64 = 1_000_000;

/// How many parts the way between two points has for a semi-free point on their line.
pub const PARTS: u64 = 1_000;

/// How many parts further each semi-free point stands than the one before it, counted round `CYCLE`.
pub const STRIDE: u64 = 618;

/// How many different shares of a way semi-free points have.
pub const CYCLE: u64 = 997;

// How many parts the way round a semi-free point of a circle has: twice the root of a million.
pub(crate) const ROUND_PARTS: u64 = 2 * PARTS;

// The greatest size of the numbers beside a semi-free point of a circle.
pub(crate) const WEIGHT: u64 = 2 * MILLION;

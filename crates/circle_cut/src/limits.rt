// The greatest sizes of what is made of positions.
use fixed_point::MOST_TICKS;

/// The greatest size of a coordinate of the way from one position to another.
pub const MOST_SPAN: u64 = 2 * MOST_TICKS;

/// The greatest size of a coefficient of a line.
pub const MOST_NORMAL: u64 = 4 * MOST_TICKS;

/// The greatest size of the constant term of a line.
pub const MOST_PLACE: u64 = 10 * MOST_TICKS * MOST_TICKS;

/// The greatest square of a radius.
pub const MOST_SQUARE: u64 = 8 * MOST_TICKS * MOST_TICKS;

/// The greatest size of a coordinate of a common point.
pub const MOST_CUT: u64 = 7 * MOST_TICKS;

/// The greatest square of the length of a line's normal.
pub const MOST_NORMAL_SQUARE: u64 = 2 * MOST_NORMAL * MOST_NORMAL;

/// The greatest size of what a position lacks to the constant term of a line.
pub const MOST_OFFSET: u64 = MOST_PLACE + 2 * MOST_NORMAL * MOST_TICKS;

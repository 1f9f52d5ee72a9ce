/// The most points of a file.
pub const MOST_POINTS: u64 = 1_000;

/// The most statements to be proved in a file.
pub const MOST_PROVES: u32 = 16;

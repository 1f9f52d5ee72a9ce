use poly_model::{MOST_CONDITIONS, MOST_EQUATIONS};

/// The fuel of each log of the first version, which does not state it.
pub const FIRST_FUEL: u32 = 320_000;

/// The most proofs of a log.
pub const MOST_PROOFS: u8 = 16;

/// The greatest number of an equation or a condition that a line may tell: as many as a node may have of both.
pub const MOST_INDEX: u16 = (MOST_EQUATIONS + MOST_CONDITIONS) as u16;

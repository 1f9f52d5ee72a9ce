ghost use Rattle.std.specs.Prelude.{◌≡◌};
ghost use Rattle.poly_model.specs.Reasons.{reason_of};

/// The most variables of a problem, and so the number of exponents of each term.
pub const MOST_VARIABLES: usize = 48;

/// The greatest number in the name of a variable.
pub const MOST_NUMBER: u8 = 255;

/// The highest degree in one variable.
pub const MOST_DEGREE: u8 = 63;

/// The most terms of a polynomial.
pub const MOST_TERMS: usize = 2048;

/// The greatest size of a coefficient, 2^127 - 1.
pub const MOST_SIZE: u128 = 0x7fff_ffff_ffff_ffff_ffff_ffff_ffff_ffff;

/// The most letters of a path.
pub const MOST_LETTERS: usize = 64;

/// The most hypotheses of a problem.
pub const MOST_HYPOTHESES: usize = 48;

/// The most conclusions of a problem.
pub const MOST_CONCLUSIONS: usize = 2;

/// The most conditions of a node: each letter of its path adds at most one.
pub const MOST_CONDITIONS: usize = MOST_LETTERS;

/// The most equations of a node: each letter of its path adds at most one to the hypotheses.
pub const MOST_EQUATIONS: usize = MOST_HYPOTHESES + MOST_LETTERS;

/// The fuel of a whole file.
pub const MOST_FUEL: u32 = 320_000;

/// The most bytes of a log, 256 MiB.
pub const MOST_LOG_BYTES: u64 = 256 * 1024 * 1024;

/// The units of memory that a list of the most terms uses.
pub const POLY_UNITS: usize = MOST_TERMS + 1;

/// The units of memory that a sum, a product or another call of arithmetic wants.
pub const ARITH_UNITS: usize = 16 * POLY_UNITS;

/// The units of memory that an elementary reduction wants.
pub const STEP_UNITS: usize = 24 * POLY_UNITS;

/// The units of memory that a pseudo-division wants.
pub const ROW_UNITS: usize = 28 * POLY_UNITS;

/// The units of memory that a leaf wants.
pub const LEAF_UNITS: usize = 32 * POLY_UNITS;

/// The units of memory that the work on one node wants.
pub const EXPAND_UNITS: usize = 400_000;

/// What bounded arithmetic meets first where it has no result.
#[derive(Clone, Copy, Debug, PartialEq, Eq)]
pub enum Limit {
    /// A degree passes the highest.
    Degree,
    /// The size of a coefficient passes the greatest.
    Bound,
    /// There are more terms than the most.
    Terms,
}

/// Why work on a polynomial or a node stops before its end: a limit, the letters of the path, or the fuel.
#[derive(Clone, Copy, Debug, PartialEq, Eq)]
pub enum Reason {
    Degree,
    Bound,
    Terms,
    /// The path has the most letters.
    Depth,
    /// The fuel that is left does not suffice.
    Fuel,
}

impl Limit {
    /// The limit as a reason.
    pub fn reason(self) -> Reason
        ensures { result ≡ reason_of self }
    {
        match self {
            Limit::Degree => Reason::Degree,
            Limit::Bound => Reason::Bound,
            Limit::Terms => Reason::Terms,
        }
    }
}

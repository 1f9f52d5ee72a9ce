use poly_model::{OwnedPoly, Reason, Row};
use proof_steps::Path;

/// What a tree proves of its problem, told by its generic leaf, the one whose path has no `-`.
#[derive(Debug, Drop)]
pub enum Verdict {
    /// The conclusions are zero wherever the hypotheses are.
    Proved,
    /// They are zero there, where none of these polynomials is.
    Under(Row<OwnedPoly>),
    /// At the generic leaf the conclusion number `k` is reduced to `r`, which is not 0.
    NotProved { path: Path, k: u8, r: OwnedPoly },
    /// The generic leaf has no zeros.
    Degenerate(Path),
    /// At the generic leaf the work stops.
    Left { path: Path, reason: Reason },
}

use poly_model::Row;
use proof_steps::{Problem, Tree};
use verdicts::Verdict;

/// A problem with its tree and what that proves.
#[derive(Debug, Drop)]
pub struct Proof {
    pub problem: Problem,
    pub tree: Tree,
    pub verdict: Verdict,
}

/// The proofs of a file, in their order, by rules of a version and with a fuel for all of them. A log of the first version
/// has `FIRST_FUEL`.
#[derive(Debug, Drop)]
pub struct Log {
    pub version: u8,
    pub fuel: u32,
    pub proofs: Row<Proof>,
}

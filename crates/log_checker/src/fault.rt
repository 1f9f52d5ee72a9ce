use proof_log::LineWord;
use thiserror::Error;

/// Why a log is not accepted, or not checked. Lines are counted from 1.
#[derive(Clone, Copy, Debug, PartialEq, Eq, Error)]
pub enum CheckFault {
    #[error("the log cannot be read")]
    ReadFault,
    #[error("the log is too large")]
    TooLarge,
    /// The lines before fit; this one is not in the grammar, or is missing.
    #[error("line {0} is malformed")]
    Malformed(u32),
    /// The lines before fit; this one, which begins with the word, does not.
    #[error("line {0} is rejected")]
    Rejected(u32, LineWord),
    #[error("out of memory")]
    OutOfMemory,
}

use thiserror::Error;

/// Why a text is no line.
#[derive(Clone, Copy, Debug, PartialEq, Eq, Error)]
pub enum LineFault {
    #[error("not a line over these variables")]
    Malformed,
    #[error("out of memory")]
    OutOfMemory,
}

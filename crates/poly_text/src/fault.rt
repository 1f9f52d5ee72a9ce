use std::alloc::AllocError;
use thiserror::Error;

/// Why a text gives no polynomial.
#[derive(Clone, Copy, Debug, PartialEq, Eq, Error)]
pub enum PolyFault {
    #[error("not the text of a polynomial over these variables")]
    BadPoly,
    #[error("out of memory")]
    OutOfMemory,
}

ghost use Rattle.std.specs.Prelude.{◌≡◌};
ghost use Rattle.ratio_eq.specs.declared.fault.RatioFault.TheVariants.{OutOfMemory};

use poly_model::Limit;
use std::alloc::{AllocError, AllocFailed};

/// Why an equality has no conclusion: the limit that forming it meets first, or want of memory.
#[derive(Clone, Copy, Debug, PartialEq, Eq)]
pub enum RatioFault {
    Limit(Limit),
    OutOfMemory,
}

impl From<AllocError> for RatioFault {
    ghost from_gives = { λ _ e. e ≡ OutOfMemory };

    fn from(_e: AllocError) -> RatioFault {
        RatioFault::OutOfMemory
    }
}

impl<T: Drop> From<AllocFailed<T>> for RatioFault {
    ghost from_gives = { λ _ e. e ≡ OutOfMemory };

    fn from(_e: AllocFailed<T>) -> RatioFault {
        RatioFault::OutOfMemory
    }
}

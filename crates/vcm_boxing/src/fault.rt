//! Why a cover isn't made.

ghost use Rattle.std.specs.Prelude.{◌≡◌};
ghost use Rattle.vcm_boxing.specs.declared.fault.CoverFault.TheVariants.{NoMemory};

use std::alloc::{AllocError, AllocFailed};

/// Why no cover is answered.
#[derive(Clone, Copy, PartialEq, Eq)]
pub enum CoverFault {
    /// A growth of memory was refused.
    NoMemory,
    /// The blocks would be more than asked for.
    TooManyBlocks,
    /// The grid would have more than 268,435,456 elements.
    TooFine,
    /// A coordinate is more than 1,000,000,000 micrometres from 0.
    TooFar,
    /// The blocks that were found don't pass the test of what is promised.
    NotCovered,
}

impl From<AllocError> for CoverFault {
    ghost from_gives = { λ _ end. end ≡ NoMemory };

    fn from(_: AllocError) -> CoverFault {
        CoverFault::NoMemory
    }
}

impl<T: Drop> From<AllocFailed<T>> for CoverFault {
    ghost from_gives = { λ _ end. end ≡ NoMemory };

    fn from(_: AllocFailed<T>) -> CoverFault {
        CoverFault::NoMemory
    }
}
